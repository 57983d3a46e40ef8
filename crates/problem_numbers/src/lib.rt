// What a user declares, of the counts and numbers that the interface takes.
//
// Counts: wheels, thrusters, a pyramid (1, else none), and for each of eight wheels whether it has a power limit (1, else none).
// Numbers: eight wheel axes, their torques, momenta, powers; twelve thruster axes, their torques; the pyramid's skew, momentum, rate, smallest measure.
// A body's numbers: q0, qf, the inertia by rows, the torque limits, the slew limit, six weights, the norm tolerance, the tie tolerance, eight wheels' start
// momenta.
#![tactic(auto)]

ghost use Rattle.std.specs.Prelude.{◌≡◌, ◌<◌};
ghost use Rattle.problem_numbers.specs.Declared as Declared;

use actuators::{ActuatorMap, Actuators, CmgPyramid, Thruster, Wheel};
use export_leaves::pack::limit_of;
use geom::Quat;
use problem::{Momenta, Problem, Weights};

// A wheel of its axis, torque, momentum, and its power if n is 1.
fn wheel_of(x: f64, y: f64, z: f64, torque: f64, momentum: f64, n: usize, power: f64) -> Wheel
    ensures { result ≡ Declared.wheel_of x y z torque momentum n power }
{
    Wheel {
        axis: [x, y, z],
        max_torque_nm: torque,
        max_momentum_nms: momentum,
        max_power_w: limit_of(n == 1, power),
    }
}

// Wheel k of eight.
fn wheel_at(c: &[usize; 11], v: &[f64; 100], k: usize) -> Wheel
    requires { k < 8 }
    ensures { result ≡ Declared.wheel_at c.now v.now k }
{
    let i = 3 * k;
    wheel_of(
        v[i],
        v[i + 1],
        v[i + 2],
        v[24 + k],
        v[32 + k],
        c[3 + k],
        v[40 + k],
    )
}

// All eight places of wheels.
fn wheels_of(c: &[usize; 11], v: &[f64; 100]) -> [Wheel; 8]
    ensures { result ≡ Declared.wheels c.now v.now }
{
    let mut out = [actuators::blank_wheel(); 8];
    for k in 0..8 {
        out[k] = wheel_at(c, v, k);
    }
    out
}

// A thruster of its axis and torque.
fn thruster_of(x: f64, y: f64, z: f64, torque: f64) -> Thruster
    ensures { result ≡ Declared.thruster_of x y z torque }
{
    Thruster {
        torque_axis: [x, y, z],
        max_torque_nm: torque,
    }
}

// Thruster k of twelve.
fn thruster_at(v: &[f64; 100], k: usize) -> Thruster
    requires { k < 12 }
    ensures { result ≡ Declared.thruster_at v.now k }
{
    let i = 48 + 3 * k;
    thruster_of(v[i], v[i + 1], v[i + 2], v[84 + k])
}

// All twelve places of thrusters.
fn thrusters_of(v: &[f64; 100]) -> [Thruster; 12]
    ensures { result ≡ Declared.thrusters v.now }
{
    let mut out = [actuators::blank_thruster(); 12];
    for k in 0..12 {
        out[k] = thruster_at(v, k);
    }
    out
}

// A pyramid, or none.
fn cmgs_of(there: bool, skew: f64, momentum: f64, rate: f64, eps: f64) -> Option<CmgPyramid>
    ensures { result ≡ Declared.cmgs_of there skew momentum rate eps }
{
    if there {
        Some(CmgPyramid {
            skew_rad: skew,
            wheel_momentum_nms: momentum,
            max_gimbal_rate_rad_s: rate,
            singularity_eps: eps,
        })
    } else {
        None
    }
}

// All that is declared of actuators.
pub fn actuators_of(c: &[usize; 11], v: &[f64; 100]) -> Actuators
    ensures { result ≡ Declared.actuators c.now v.now }
{
    Actuators {
        wheels: wheels_of(c, v),
        wheel_count: c[0],
        thrusters: thrusters_of(v),
        thruster_count: c[1],
        cmgs: cmgs_of(c[2] == 1, v[96], v[97], v[98], v[99]),
    }
}

// The map that `prepare` makes of them, blank where it refuses.
pub fn map_of(c: &[usize; 11], v: &[f64; 100]) -> ActuatorMap
    ensures { result ≡ Declared.map c.now v.now }
{
    actuators::prepare(actuators_of(c, v)).unwrap_or(actuators::blank_map())
}

// The six weights of a body's numbers.
fn weights_of(b: &[f64; 37]) -> Weights
    ensures { result ≡ Declared.weights b.now }
{
    Weights {
        time: b[21],
        control: b[22],
        energy: b[23],
        pointing: b[24],
        smoothness: b[25],
        momentum: b[26],
    }
}

// The wheels' start momenta: as many count as there are wheels.
fn momenta_of(c: &[usize; 11], b: &[f64; 37]) -> Momenta
    ensures { result ≡ Declared.momenta c.now b.now }
{
    Momenta {
        count: c[0],
        at: [b[29], b[30], b[31], b[32], b[33], b[34], b[35], b[36]],
    }
}

// A whole problem; with a slew limit or without.
pub fn problem_of(c: &[usize; 11], v: &[f64; 100], b: &[f64; 37], limited: bool) -> Problem
    ensures { result ≡ Declared.problem c.now v.now b.now limited }
{
    Problem {
        q0: Quat::new(b[0], b[1], b[2], b[3]),
        qf: Quat::new(b[4], b[5], b[6], b[7]),
        inertia: [b[8], b[9], b[10], b[11], b[12], b[13], b[14], b[15], b[16]],
        torque_limit: [b[17], b[18], b[19]],
        slew: limit_of(limited, b[20]),
        weights: weights_of(b),
        norm_tolerance: b[27],
        tie_tolerance: b[28],
        actuators: actuators_of(c, v),
        momenta: momenta_of(c, b),
    }
}
