// A sample between a path's nodes. Carried over from `interpolate` of quatopsy-plan/src/scvx.rs (Apache-2.0), changed: nodes are rows of numbers, each part of
// the formula is a function of its own, and the rotation's sine and cosine can be refused.
ghost use Rattle.std.specs.Prelude.{◌≡◌, ◌<◌, ◌≤◌, false};
ghost use Rattle.std.specs.Float.Ieee.{lt};
ghost use Rattle.samples.specs.Samples as Samples;

use super::PathSample;
use super::counts::whole;
use common::{Refusal, SOLVER_NODES};
use geom::Quat;

// The time of sample index of count.
pub fn time_of(duration: f64, count: usize, index: usize) -> f64
    requires { (index < count) × (count ≤ 100000) }
    ensures { result ≡ Samples.time_of duration count index }
{
    duration * whole(index) / (whole(count) - 1.0)
}

pub fn time(nodes: &[[f64; 22]; SOLVER_NODES], k: usize) -> f64
    requires { k < 17 }
    ensures { result ≡ Samples.time nodes.now k }
{
    nodes[k][0]
}

pub fn attitude(nodes: &[[f64; 22]; SOLVER_NODES], k: usize) -> Quat
    requires { k < 17 }
    ensures { result ≡ Samples.attitude nodes.now k }
{
    Quat {
        w: nodes[k][1],
        x: nodes[k][2],
        y: nodes[k][3],
        z: nodes[k][4],
    }
}

pub fn rate(nodes: &[[f64; 22]; SOLVER_NODES], k: usize) -> [f64; 3]
    requires { k < 17 }
    ensures { result ≡ Samples.rate nodes.now k }
{
    [nodes[k][5], nodes[k][6], nodes[k][7]]
}

fn torque(nodes: &[[f64; 22]; SOLVER_NODES], k: usize) -> [f64; 3]
    requires { k < 17 }
    ensures { result ≡ Samples.torque nodes.now k }
{
    [nodes[k][8], nodes[k][9], nodes[k][10]]
}

pub fn momentum(nodes: &[[f64; 22]; SOLVER_NODES], k: usize) -> [f64; 3]
    requires { k < 17 }
    ensures { result ≡ Samples.momentum nodes.now k }
{
    [nodes[k][11], nodes[k][12], nodes[k][13]]
}

// Node k, at the sample's own time.
pub fn at_node(nodes: &[[f64; 22]; SOLVER_NODES], k: usize, t: f64) -> PathSample
    requires { k < 17 }
    ensures { result ≡ Samples.node_sample nodes.now k t }
{
    PathSample {
        t,
        q: attitude(nodes, k),
        w: rate(nodes, k),
        tau: torque(nodes, k),
        h: momentum(nodes, k),
    }
}

// The mean of a and b, the fraction f of the way from a to b.
pub fn mean(a: [f64; 3], b: [f64; 3], f: f64) -> [f64; 3]
    ensures { result ≡ Samples.mean a b f }
{
    geom::add3(geom::scale3(a, 1.0 - f), geom::scale3(b, f))
}

// The rate's change from a to b over the time dt.
pub fn rate_change(a: [f64; 3], b: [f64; 3], dt: f64) -> [f64; 3]
    ensures { result ≡ Samples.rate_change a b dt }
{
    geom::scale3(geom::sub3(b, a), 1.0 / dt)
}

// The rotation over the time s from the rate w, which changes by wd.
pub fn rotation(w: [f64; 3], wd: [f64; 3], s: f64) -> [f64; 3]
    ensures { result ≡ Samples.rotation w wd s }
{
    geom::add3(geom::scale3(w, s), geom::scale3(wd, 0.5 * s * s))
}

// The sample s with its attitude turned by a turn that was worked out before.
pub fn turned_by(
    turn: Option<Quat>,
    tolerance: f64,
    s: PathSample,
    index: usize,
) -> Result<PathSample, Refusal>
    ensures { result ≡ Samples.turned_by turn tolerance s index }
{
    let e = turn.ok_or(Refusal {
        number: 11,
        place: index,
    })?;
    let turned = s.q.mul(e).normalized(tolerance);
    let q = turned.ok_or(Refusal {
        number: 5,
        place: index,
    })?;
    Ok(PathSample { q, ..s })
}

// The sample s with its attitude turned by v.
fn turned(tolerance: f64, s: PathSample, v: [f64; 3], index: usize) -> Result<PathSample, Refusal>
    ensures { result ≡ Samples.turned tolerance s v index }
{
    turned_by(geom::exp_so3(v), tolerance, s, index)
}

// The sample at the time t between node i and the next.
fn between(
    inertia: [[f64; 3]; 3],
    tolerance: f64,
    nodes: &[[f64; 22]; SOLVER_NODES],
    i: usize,
    t: f64,
    index: usize,
) -> Result<PathSample, Refusal>
    requires { i < 16 }
    ensures { result ≡ Samples.between inertia tolerance nodes.now i t index }
{
    let t0 = time(nodes, i);
    let dt = time(nodes, i + 1) - t0;
    let s = t - t0;
    let f = s / dt;
    let w0 = rate(nodes, i);
    let w1 = rate(nodes, i + 1);
    let w = mean(w0, w1, f);
    let h = mean(momentum(nodes, i), momentum(nodes, i + 1), f);
    let wd = rate_change(w0, w1, dt);
    let tau = geom::euler_lhs(inertia, wd, w, h);
    let q = attitude(nodes, i);
    turned(
        tolerance,
        PathSample { t, q, w, tau, h },
        rotation(w0, wd, s),
        index,
    )
}

// The last node before t, by the first 16; the last node's time is not before t.
fn earlier(nodes: &[[f64; 22]; SOLVER_NODES], t: f64) -> usize
    requires { lt (Samples.time nodes.now 16) t ≡ false }
    ensures { (result ≡ Samples.earlier nodes.now t) × (result < 16) }
{
    for i in 0..15 {
        if !(time(nodes, i + 1) < t) {
            return i;
        }
    }
    15
}

// The sample at the time t.
pub fn interpolate(
    inertia: [[f64; 3]; 3],
    tolerance: f64,
    nodes: &[[f64; 22]; SOLVER_NODES],
    t: f64,
    index: usize,
) -> Result<PathSample, Refusal>
    ensures { result ≡ Samples.interpolate inertia tolerance nodes.now t index }
{
    if t <= time(nodes, 0) {
        return Ok(at_node(nodes, 0, t));
    }
    if t >= time(nodes, 16) {
        return Ok(at_node(nodes, 16, t));
    }
    let i = earlier(nodes, t);
    between(inertia, tolerance, nodes, i, t, index)
}
