// Nodes as rows of 22 numbers, which can be lent: time, attitude, rate, torque, body momentum, the wheels' momenta.
ghost use Rattle.std.specs.Prelude.{◌≡◌, ◌<◌, length};
ghost use Rattle.forward.specs.Runs as Runs;
ghost use Rattle.forward.specs.Rows as Rows;

use super::{BodyState, Node};
use common::SOLVER_NODES;
use geom::Quat;

// Node k: the state at its time, with the torque tau.
pub fn node_row(dt: f64, k: usize, s: BodyState, tau: [f64; 3]) -> [f64; 22]
    requires { k < 17 }
    ensures { Rows.node_from result ≡ Runs.node_of dt k s tau }
{
    let i = k as u32;
    let q = s.q;
    let w = s.w;
    let h = s.h;
    let m = s.hw;
    [
        (i as f64) * dt,
        q.w,
        q.x,
        q.y,
        q.z,
        w[0],
        w[1],
        w[2],
        tau[0],
        tau[1],
        tau[2],
        h[0],
        h[1],
        h[2],
        m[0],
        m[1],
        m[2],
        m[3],
        m[4],
        m[5],
        m[6],
        m[7],
    ]
}

// The attitude in a row.
pub fn attitude_in(r: [f64; 22]) -> Quat
    ensures { result ≡ Rows.attitude_in r }
{
    Quat {
        w: r[1],
        x: r[2],
        y: r[3],
        z: r[4],
    }
}

// The rate.
pub fn rate_in(r: [f64; 22]) -> [f64; 3]
    ensures { result ≡ Rows.rate_in r }
{
    [r[5], r[6], r[7]]
}

// The torque.
pub fn torque_in(r: [f64; 22]) -> [f64; 3]
    ensures { result ≡ Rows.torque_in r }
{
    [r[8], r[9], r[10]]
}

// The wheels' momenta.
pub fn momenta_in(r: [f64; 22]) -> [f64; 8]
    ensures { result ≡ Rows.momenta_in r }
{
    [r[14], r[15], r[16], r[17], r[18], r[19], r[20], r[21]]
}

// The node in a row.
fn node_in(r: [f64; 22]) -> Node
    ensures { result ≡ Rows.node_from r }
{
    let q = attitude_in(r);
    let w = rate_in(r);
    let tau = torque_in(r);
    let h = [r[11], r[12], r[13]];
    let hw = momenta_in(r);
    Node {
        t: r[0],
        q: q,
        w: w,
        tau: tau,
        h: h,
        hw: hw,
    }
}

// The 17 nodes in rows.
pub fn nodes_in(rows: &[[f64; 22]; SOLVER_NODES]) -> [Node; SOLVER_NODES]
    requires { length rows.now ≡ 17 }
    ensures { result ≡ Rows.nodes_from rows.now }
{
    let first = node_in(rows[0]);
    let mut nodes = [first; 17];
    for k in 1..SOLVER_NODES {
        nodes[k] = node_in(rows[k]);
    }
    nodes
}
