// Preparing what a user declares: counts, then each actuator's numbers and its axis, in the order in which they are declared.
// Carried over from quatopsy-plan/src/actuators.rs (Apache-2.0), changed: the prepared actuators go into flat tables, a refusal is a number and a place.
ghost use Rattle.std.specs.Prelude.{◌≡◌, ◌+◌, ◌*◌, ◌≤◌, ◌<◌, length};
ghost use Rattle.actuators.specs.Prepare as Prepare;

use crate::{ActuatorMap, Actuators, CmgPyramid, Thruster, Wheel, unfilled};
use common::{MAX_THRUSTERS, MAX_WHEELS, Refusal};
use geom::{is_positive, unit3};

// Not finite, or not above 0.
fn outside(x: f64) -> bool
    ensures { result ≡ Prepare.outside x }
{
    !is_positive(x)
}

// A declared power that is not finite and above 0.
fn power_outside(power: Option<f64>) -> bool
    ensures { result ≡ Prepare.power_outside power }
{
    match power {
        None => false,
        Some(limit) => outside(limit),
    }
}

// One of a wheel's numbers is outside its range.
fn wheel_outside(wheel: Wheel) -> bool
    ensures { result ≡ Prepare.wheel_outside wheel }
{
    outside(wheel.max_torque_nm)
        | outside(wheel.max_momentum_nms)
        | power_outside(wheel.max_power_w)
}

// One of a pyramid's numbers is outside its range.
fn pyramid_outside(pyramid: CmgPyramid) -> bool
    ensures { result ≡ Prepare.pyramid_outside pyramid }
{
    outside(pyramid.skew_rad)
        | (pyramid.skew_rad >= 1.6)
        | outside(pyramid.wheel_momentum_nms)
        | outside(pyramid.max_gimbal_rate_rad_s)
        | outside(pyramid.singularity_eps)
}

// Axis k of a flat table becomes x, y, z.
fn put_axis(axes: &mut [f64], k: usize, x: f64, y: f64, z: f64)
    requires { 3 * k + 3 ≤ length axes.old }
    ensures { axes.new ≡ Prepare.axis_set axes.old k x y z }
{
    axes[3 * k] = x;
    axes[3 * k + 1] = y;
    axes[3 * k + 2] = z;
}

// The map with wheel k in its tables, its unit axis x, y, z.
fn with_wheel(map: ActuatorMap, k: usize, wheel: Wheel, x: f64, y: f64, z: f64) -> ActuatorMap
    requires { k < 8 }
    ensures { result ≡ Prepare.with_wheel map k wheel x y z }
{
    let mut out = map;
    put_axis(&mut out.wheel_axes, k, x, y, z);
    out.wheel_torques[k] = wheel.max_torque_nm;
    out.wheel_momenta[k] = wheel.max_momentum_nms;
    out.wheel_powers[k] = wheel.max_power_w;
    out
}

// The map with wheel k, whose numbers are checked before its axis.
fn wheel_turn(map: ActuatorMap, k: usize, wheel: Wheel) -> Result<ActuatorMap, Refusal>
    requires { k < 8 }
    ensures { result ≡ Prepare.wheel_checked map k wheel }
{
    if wheel_outside(wheel) {
        return Err(Refusal {
            number: 2,
            place: k,
        });
    }
    let (x, y, z) = unit3(wheel.axis).ok_or(Refusal {
        number: 3,
        place: k,
    })?;
    Ok(with_wheel(map, k, wheel, x, y, z))
}

// The map with the first `count` wheels.
fn wheels_checked(
    wheels: [Wheel; MAX_WHEELS],
    count: usize,
    start: ActuatorMap,
) -> Result<ActuatorMap, Refusal>
    requires { count ≤ 8 }
    ensures { result ≡ Prepare.wheels_checked wheels (Prepare.so_far start) count }
{
    let mut map = start;
    for k in 0..count {
        map = wheel_turn(map, k, wheels[k])?;
    }
    Ok(map)
}

// The map with thruster k in its tables, its unit axis x, y, z.
fn with_thruster(
    map: ActuatorMap,
    k: usize,
    thruster: Thruster,
    x: f64,
    y: f64,
    z: f64,
) -> ActuatorMap
    requires { k < 12 }
    ensures { result ≡ Prepare.with_thruster map k thruster x y z }
{
    let mut out = map;
    put_axis(&mut out.thruster_axes, k, x, y, z);
    out.thruster_torques[k] = thruster.max_torque_nm;
    out
}

// The map with thruster k, whose torque is checked before its axis. Its place is 8 + k.
// Apart from `wheel_turn`: a trait with laws for the two types, sizes and places is longer than the lines that the two share.
fn thruster_turn(map: ActuatorMap, k: usize, thruster: Thruster) -> Result<ActuatorMap, Refusal>
    requires { k < 12 }
    ensures { result ≡ Prepare.thruster_checked map k thruster }
{
    let place = 8 + k;
    if outside(thruster.max_torque_nm) {
        return Err(Refusal { number: 2, place });
    }
    let (x, y, z) = unit3(thruster.torque_axis).ok_or(Refusal { number: 3, place })?;
    Ok(with_thruster(map, k, thruster, x, y, z))
}

// The map with the first `count` thrusters.
fn thrusters_checked(
    thrusters: [Thruster; MAX_THRUSTERS],
    count: usize,
    start: ActuatorMap,
) -> Result<ActuatorMap, Refusal>
    requires { count ≤ 12 }
    ensures { result ≡ Prepare.thrusters_checked thrusters (Prepare.so_far start) count }
{
    let mut map = start;
    for k in 0..count {
        map = thruster_turn(map, k, thrusters[k])?;
    }
    Ok(map)
}

// The pyramid's numbers, at place 20.
fn check_cmgs(cmgs: Option<CmgPyramid>) -> Result<(), Refusal>
    ensures { result ≡ Prepare.check_cmgs cmgs }
{
    let Some(pyramid) = cmgs else {
        return Ok(());
    };
    if pyramid_outside(pyramid) {
        return Err(Refusal {
            number: 2,
            place: 20,
        });
    }
    Ok(())
}

// The map of what a user declares: the counts (1), then wheel by wheel, thruster by thruster and the pyramid its numbers (2) and its axis (3).
pub fn prepare(a: Actuators) -> Result<ActuatorMap, Refusal>
    ensures { result ≡ Prepare.prepare a }
{
    if a.wheel_count > MAX_WHEELS {
        return Err(Refusal {
            number: 1,
            place: 0,
        });
    }
    if a.thruster_count > MAX_THRUSTERS {
        return Err(Refusal {
            number: 1,
            place: 1,
        });
    }
    let start = unfilled(a.wheel_count, a.thruster_count, a.cmgs);
    let wheeled = wheels_checked(a.wheels, a.wheel_count, start)?;
    let map = thrusters_checked(a.thrusters, a.thruster_count, wheeled)?;
    check_cmgs(a.cmgs)?;
    Ok(map)
}
