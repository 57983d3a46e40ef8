// A path's nodes as rows of numbers: time, attitude, rate, torque, body momentum, the wheels' momenta.
ghost use Rattle.std.specs.Prelude.{◌≡◌};
ghost use Rattle.samples.specs.Rows as Rows;

use common::SOLVER_NODES;
use forward::Node;

// A node's numbers.
fn row(n: Node) -> [f64; 22]
    ensures { result ≡ Rows.row n }
{
    let Node {
        t,
        q,
        w,
        tau: u,
        h,
        hw: m,
        ..
    } = n;
    [
        t, q.w, q.x, q.y, q.z, w[0], w[1], w[2], u[0], u[1], u[2], h[0], h[1], h[2], m[0], m[1],
        m[2], m[3], m[4], m[5], m[6], m[7],
    ]
}

// The rows of 17 nodes.
pub fn rows(nodes: [Node; SOLVER_NODES]) -> [[f64; 22]; SOLVER_NODES]
    ensures { result ≡ Rows.rows nodes }
{
    let mut out = [[0.0; 22]; SOLVER_NODES];
    for k in 0..SOLVER_NODES {
        out[k] = row(nodes[k]);
    }
    out
}
