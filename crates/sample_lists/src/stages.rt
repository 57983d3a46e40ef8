// The three stages of a sample: it is placed between two nodes, its turn since the first of them is worked out, and its numbers are made. No stage reads anything that another
// sample's later stage makes.
ghost use Rattle.std.specs.Prelude.{◌≡◌, ◌<◌, ◌≤◌};
ghost use Rattle.samples.specs.Samples as Samples;
ghost use Rattle.sample_lists.specs.Lists as Lists;
ghost use Rattle.sample_lists.specs.StagesInner as Stages;

use super::steps::{step_change, step_time, step_torque};
use common::{Refusal, SOLVER_NODES};
use geom::Quat;
use samples::PathSample;
use samples::nodes::{at_node, attitude, mean, momentum, rate, rotation, time, time_of, turned_by};

// A sample's time, the node before it, the time since that node, the rotation since then and its angle.
#[derive(Clone, Copy)]
pub struct Placed {
    pub t: f64,
    pub i: usize,
    pub s: f64,
    pub v: [f64; 3],
    pub n: f64,
}

// A sample's time, the node before it, the time since that node, and the turn since then.
#[derive(Clone, Copy)]
pub struct Turning {
    pub t: f64,
    pub i: usize,
    pub s: f64,
    pub turn: Option<Quat>,
}

// Before the first sample is placed.
pub fn unplaced() -> Placed
    ensures { result.i ≡ 0 }
{
    Placed {
        t: 0.0,
        i: 0,
        s: 0.0,
        v: [0.0; 3],
        n: 0.0,
    }
}

// Before the first sample is turned.
pub fn unturned() -> Turning
    ensures { result.i ≡ 0 }
{
    Turning {
        t: 0.0,
        i: 0,
        s: 0.0,
        turn: None,
    }
}

// The last node before t, by the first 16. All nodes up to `from` but the first are before t.
fn walk(nodes: &[[f64; 22]; SOLVER_NODES], from: usize, t: f64) -> usize
    requires { (from < 16) × Stages.Passed nodes.now t from }
    ensures { (result ≡ Stages.walk nodes.now t) × (result < 16) × Stages.Passed nodes.now t result }
{
    for i in from..15 {
        if !(time(nodes, i + 1) < t) {
            return i;
        }
    }
    15
}

// Stage 1 of sample k. The walk along the nodes goes on from node `from`, where the walk to the time `since` ended, unless the time has fallen.
pub fn place(
    duration: f64,
    nodes: &[[f64; 22]; SOLVER_NODES],
    steps: &[[f64; 7]; 16],
    count: usize,
    from: usize,
    since: f64,
    k: usize,
) -> Placed
    requires { (k < count) × (count ≤ 100000) × (from < 16) × Stages.Passed nodes.now since from }
    ensures { Stages.PlacedFor nodes.now steps.now (Samples.time_of duration count k) result }
{
    let t = time_of(duration, count, k);
    let later = since <= t;
    let start = if later { from } else { 0 };
    let i = walk(nodes, start, t);
    let s = t - time(nodes, i);
    let v = rotation(rate(nodes, i), step_change(steps, i), s);
    let n = geom::norm3(v);
    Placed { t, i, s, v, n }
}

// Stage 2.
pub fn turn(p: Placed) -> Turning
    ensures { result ≡ Stages.turning p }
{
    Turning {
        t: p.t,
        i: p.i,
        s: p.s,
        turn: geom::exp_at(p.v, p.n),
    }
}

// Stage 3 between node i and the next.
fn amidst(
    inertia: [[f64; 3]; 3],
    tolerance: f64,
    nodes: &[[f64; 22]; SOLVER_NODES],
    steps: &[[f64; 7]; 16],
    p: Turning,
    index: usize,
) -> Result<PathSample, Refusal>
    requires { p.i < 16 }
    ensures { result ≡ Stages.amidst inertia tolerance nodes.now steps.now p index }
{
    let i = p.i;
    let f = p.s / step_time(steps, i);
    let w = mean(rate(nodes, i), rate(nodes, i + 1), f);
    let h = mean(momentum(nodes, i), momentum(nodes, i + 1), f);
    let l = geom::add3(geom::apply_tensor(inertia, w), h);
    let tau = geom::add3(step_torque(steps, i), geom::cross(w, l));
    let from = PathSample {
        t: p.t,
        q: attitude(nodes, i),
        w,
        tau,
        h,
    };
    turned_by(p.turn, tolerance, from, index)
}

// Stage 3: the sample, or a refusal.
pub fn finish(
    inertia: [[f64; 3]; 3],
    tolerance: f64,
    nodes: &[[f64; 22]; SOLVER_NODES],
    steps: &[[f64; 7]; 16],
    p: Turning,
    index: usize,
) -> Result<PathSample, Refusal>
    requires { p.i < 16 }
    ensures { result ≡ Stages.finished inertia tolerance nodes.now steps.now p index }
{
    let t = p.t;
    if t <= time(nodes, 0) {
        return Ok(at_node(nodes, 0, t));
    }
    if t >= time(nodes, 16) {
        return Ok(at_node(nodes, 16, t));
    }
    amidst(inertia, tolerance, nodes, steps, p, index)
}

// A sample's 14 numbers: time, attitude, rate, torque, body momentum.
pub fn numbers(s: PathSample) -> [f64; 14]
    ensures { result ≡ Lists.numbers s }
{
    let PathSample { t, q, w, tau: u, h } = s;
    [
        t, q.w, q.x, q.y, q.z, w[0], w[1], w[2], u[0], u[1], u[2], h[0], h[1], h[2],
    ]
}
