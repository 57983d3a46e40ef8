// The limits of controls, momenta and powers: a row held to them, and by how much they are passed. Tables are lent; counts and lengths are asked for.
// Carried over from quatopsy-plan/src/actuators.rs (Apache-2.0), changed: flat tables are lent, a held control says whether it was changed.
#![tactic(auto)]

ghost use Rattle.std.specs.Prelude.{◌≡◌, ◌≤◌, length};
ghost use Rattle.common.specs.Lists.{at};
ghost use Rattle.control_rows.specs.Parts as Parts;
ghost use Rattle.control_rows.specs.Stored as Stored;
ghost use Rattle.control_limits.specs.Limits as Limits;

use actuators::CmgPyramid;
use common::MAX_WHEELS;
use control_rows::{Rig, is_bare};

// A control held to its limit: the number, and whether holding changed it.
#[derive(Clone, Copy)]
pub struct Held {
    pub x: f64,
    pub changed: bool,
}

// One control held to its limit, and whether that changed it: the seed, the trials and the columns all come through here.
pub fn hold(x: f64, limit: f64) -> Held
    ensures { result ≡ Limits.holding limit x }
{
    Held {
        x: float::clamp(x, -limit, limit),
        changed: limit < float::abs(x),
    }
}

// The first n controls of a part, each held to its limit.
pub fn hold_part(limits: &[f64], n: usize, u: &mut [f64])
    requires { (n ≤ length limits.now) × (n ≤ length u.old) }
    ensures { u.new ≡ Stored.stored (Limits.hold_at (at limits.now)) u.old n }
{
    for i in 0..n {
        u[i] = hold(u[i], limits[i]).x;
    }
}

// The larger of `e` and the size of `x` less its limit, where it has one.
pub fn larger_excess(limit: Option<f64>, x: f64, e: f64) -> f64
    ensures { result ≡ Limits.larger_excess limit x e }
{
    match limit {
        None => e,
        Some(most) => float::max(e, float::abs(x) - most),
    }
}

// By how much the first n momenta pass their limits at most.
pub fn momentum_excess(limits: &[f64; 8], n: usize, hw: &[f64]) -> f64
    requires { (n ≤ 8) × (n ≤ length hw.now) }
    ensures { result ≡ Limits.momentum_excess limits.now n hw.now }
{
    let mut e = 0.0;
    for i in 0..n {
        e = larger_excess(Some(limits[i]), hw[i], e);
    }
    e
}

// By how much the first n wheels pass their declared powers at most.
pub fn power_excess(
    axes: &[f64; 24],
    powers: [Option<f64>; MAX_WHEELS],
    n: usize,
    u: &[f64],
    omega: [f64; 3],
) -> f64
    requires { (n ≤ 8) × (n ≤ length u.now) }
    ensures { result ≡ Limits.power_excess axes.now powers n u.now omega }
{
    let mut e = 0.0;
    for i in 0..n {
        let a = 3 * i;
        let speed = omega[0] * axes[a] + omega[1] * axes[a + 1] + omega[2] * axes[a + 2];
        e = larger_excess(powers[i], u[i] * speed, e);
    }
    e
}

// The limit of a gimbal's rate; without a pyramid nothing is held to it.
pub fn gimbal_rate(cmgs: Option<CmgPyramid>) -> f64
    ensures { result ≡ Limits.gimbal_rate cmgs }
{
    match cmgs {
        None => 0.0,
        Some(p) => p.max_gimbal_rate_rad_s,
    }
}

// The smaller of two counts.
pub fn fewer(a: usize, b: usize) -> usize
    ensures { result ≡ Limits.fewer a b }
{
    if a < b { a } else { b }
}

// The parts of a row held to their limits: the wheel part, then the thruster part, then the gimbal rates that the row has.
fn project_parts(r: Rig, wheels: &[f64; 8], thrusters: &[f64; 12], u: &mut [f64])
    requires { Parts.Room r 0 (length u.old) }
    ensures { u.new ≡ Limits.parts_held_value r wheels.now thrusters.now u.old }
{
    let nw = r.wheel_count;
    let nt = r.thruster_count;
    let b = nw + nt;
    let e = u.len();
    let cmgs = r.cmgs;
    let rates = [gimbal_rate(cmgs); 4];
    let n = fewer(actuators::gimbals(cmgs), e - b);
    hold_part(wheels, nw, &mut u[0..e]);
    hold_part(thrusters, nt, &mut u[nw..e]);
    hold_part(&rates, n, &mut u[b..e]);
}

// A row held to its limits; with no actuators its three torques, each to its axis' limit.
pub fn project_row(
    r: Rig,
    wheels: &[f64; 8],
    thrusters: &[f64; 12],
    torque_limit: [f64; 3],
    u: &mut [f64],
)
    requires { Parts.Sized r 0 (length u.old) }
    ensures { u.new ≡ Limits.projected r wheels.now thrusters.now torque_limit u.old }
{
    if is_bare(r) {
        hold_part(&torque_limit, 3, u);
        return;
    }
    project_parts(r, wheels, thrusters, u);
}
