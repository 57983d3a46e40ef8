// How many of a decision's 16 controls at each place of a row are changed when they are held to their limits. A decision that is to be projected is counted
// here; the projection itself stays as it is, and columns of the Jacobian, whose counts nobody reads, are not counted.
#![tactic(auto)]

ghost use Rattle.std.specs.Prelude.{◌≡◌, ◌≤◌, ◌<◌};
ghost use Rattle.actuators.specs.Maps.{control_dim};
ghost use Rattle.control_limits.specs.Limits.{part_limit_value};
ghost use Rattle.controls.specs.Controls.{rig_of};
ghost use Rattle.held_counts.specs.Counts as Counts;

use actuators::{ActuatorMap, control_dim};
use common::{Decision, STEPS};
use control_limits::{gimbal_rate, hold};
use control_rows::is_bare;
use controls::rig_of;

// Control i's limit in a row of parts: its wheel's torque, its thruster's torque or the pyramid's rate.
fn part_limit(map: ActuatorMap, i: usize) -> f64
    requires { (map.wheel_count ≤ 8) × (map.thruster_count ≤ 12) }
    ensures { result ≡ part_limit_value (rig_of map) map.wheel_torques map.thruster_torques i }
{
    let nw = map.wheel_count;
    if i < nw {
        let wheels = map.wheel_torques;
        return wheels[i];
    }
    if i < nw + map.thruster_count {
        let thrusters = map.thruster_torques;
        return thrusters[i - nw];
    }
    let cmgs = map.cmgs;
    gimbal_rate(cmgs)
}

// Control i's limit; with no actuators that of its axis.
fn limit_in(map: ActuatorMap, torque_limit: [f64; 3], i: usize) -> f64
    requires { i < control_dim map }
    ensures { result ≡ Counts.limit_in map torque_limit i }
{
    if is_bare(rig_of(map)) {
        return torque_limit[i];
    }
    part_limit(map, i)
}

// One more where the control x is changed.
fn counted(limit: f64, x: f64, n: usize) -> usize
    requires { n < 16 }
    ensures { result ≡ Counts.counted limit x n }
{
    let h = hold(x, limit);
    if h.changed { n + 1 } else { n }
}

// How many of the 16 controls at place i are changed, n to a row.
fn held_at(limit: f64, n: usize, z: &Decision, i: usize) -> usize
    requires { (n ≤ 12) × (i < n) }
    ensures { result ≡ Counts.held_at limit n z.now i }
{
    let mut count: usize = 0;
    for k in 0..STEPS {
        count = counted(limit, z[1 + k * n + i], count);
    }
    count
}

// How many of the 16 controls at each place are changed; past a row's controls stands 0. The duration is not counted.
pub fn held_counts(map: ActuatorMap, torque_limit: [f64; 3], z: &Decision) -> [usize; 12]
    requires { control_dim map ≤ 12 }
    ensures { result ≡ Counts.held_counts map torque_limit z.now }
{
    let n = control_dim(map);
    let mut out: [usize; 12] = [0; 12];
    for i in 0..n {
        out[i] = held_at(limit_in(map, torque_limit, i), n, z, i);
    }
    out
}
