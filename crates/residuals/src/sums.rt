// The sums of the residuals, each from +0 in order. Carried over from `residuals` and `norm_slice` of quatopsy-plan/src/scvx.rs (Apache-2.0), changed: each
// sum is a function of its own, a sum of no numbers is +0, and one over steps goes on from that of the first of them.
ghost use Rattle.std.specs.Prelude.{◌≡◌, ◌+◌, ◌≤◌, ◌<◌, length};
ghost use Rattle.forward.specs.Rows.{node_from, nodes_from};
ghost use Rattle.residuals.specs.Sums as Sums;
ghost use Rattle.residuals.specs.Begins.{Summed};

use super::Begun;
use common::{SOLVER_NODES, STEPS};
use float::{abs, sqrt};
use forward::rows::{rate_in, torque_in};

// The computed length of the first n numbers of r.
pub fn norm_slice(r: &[f64], n: usize) -> f64
    requires { n ≤ length r.now }
    ensures { result ≡ Sums.norm_slice r.now n }
{
    let mut sum = 0.0;
    for k in 0..n {
        sum += r[k] * r[k];
    }
    sqrt(sum)
}

// The squares of the n controls of a decision, row by row.
pub fn effort(z: &[f64], n: usize) -> f64
    requires { 1 + n ≤ length z.now }
    ensures { result ≡ Sums.effort z.now n }
{
    let mut sum = 0.0;
    for k in 0..n {
        let x = z[k + 1];
        sum += x * x;
    }
    sum
}

// The size of torque times rate over one step, times its time, added to e.
fn energy_turn(row: [f64; 22], dt: f64, e: f64) -> f64
    ensures { result ≡ Sums.energy_of (node_from row) dt e }
{
    let tau = torque_in(row);
    let w = rate_in(row);
    e + abs(geom::dot3(tau, w)) * dt
}

// The size of torque times rate over the 16 steps, of which the first k make e.
pub fn energy(nodes: &[[f64; 22]; SOLVER_NODES], dt: f64, k: usize, e: f64) -> f64
    requires { ((k ≤ 16) × (length nodes.now ≡ 17)) × (e ≡ Sums.energy_over (nodes_from nodes.now) dt k) }
    ensures { result ≡ Sums.energy (nodes_from nodes.now) dt }
{
    let mut sum = e;
    for i in k..STEPS {
        sum = energy_turn(nodes[i], dt, sum);
    }
    sum
}

// The squared rate of change over one step, from the node in row to that in next, times its time, added to e.
fn smooth_turn(row: [f64; 22], next: [f64; 22], dt: f64, e: f64) -> f64
    ensures { result ≡ Sums.smooth_of (node_from row).w (node_from next).w dt e }
{
    let w = rate_in(row);
    let w2 = rate_in(next);
    let x = geom::norm3(geom::scale3(geom::sub3(w2, w), 1.0 / dt));
    e + x * x * dt
}

// The squared rate of change over the 16 steps, of which the first k make e.
pub fn smooth(nodes: &[[f64; 22]; SOLVER_NODES], dt: f64, k: usize, e: f64) -> f64
    requires { ((k ≤ 16) × (length nodes.now ≡ 17)) × (e ≡ Sums.smooth_over (nodes_from nodes.now) dt k) }
    ensures { result ≡ Sums.smooth (nodes_from nodes.now) dt }
{
    let mut sum = e;
    for i in k..STEPS {
        sum = smooth_turn(nodes[i], nodes[i + 1], dt, sum);
    }
    sum
}

// The sums with step k.
pub fn sums_next(nodes: &[[f64; 22]; SOLVER_NODES], dt: f64, k: usize, s: Begun) -> Begun
    requires { (k < 16) × Summed dt nodes.now k s }
    ensures { Summed dt nodes.now (k + 1) result }
{
    let energy = energy_turn(nodes[k], dt, s.energy);
    if k == 0 {
        return Begun {
            energy: energy,
            smooth: s.smooth,
        };
    }
    let smooth = smooth_turn(nodes[k - 1], nodes[k], dt, s.smooth);
    Begun {
        energy: energy,
        smooth: smooth,
    }
}
