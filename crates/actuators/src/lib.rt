// What a user declares of wheels, thrusters and a CMG pyramid, and the map that the solver reads. Axes are body-fixed.
// Carried over from quatopsy-plan/src/actuators.rs (Apache-2.0), changed: lists are arrays with a count, prepared actuators are flat tables, a refusal is a
// number and a place.
#![tactic(auto)]

ghost use Rattle.std.specs.Prelude.{◌≡◌};
ghost use Rattle.actuators.specs.Maps as Maps;

use common::{MAX_THRUSTERS, MAX_WHEELS};

mod allocation;
mod checks;
pub mod pyramid;

pub use allocation::allocate_body_torque;
pub use checks::prepare;
pub use pyramid::{pyramid_a, singularity};

// A reaction wheel as a user declares it.
#[derive(Clone, Copy)]
pub struct Wheel {
    pub axis: [f64; 3],
    pub max_torque_nm: f64,
    pub max_momentum_nms: f64,
    pub max_power_w: Option<f64>,
}

// A torque thruster as a user declares it.
#[derive(Clone, Copy)]
pub struct Thruster {
    pub torque_axis: [f64; 3],
    pub max_torque_nm: f64,
}

// A pyramid of four control moment gyros.
#[derive(Clone, Copy)]
pub struct CmgPyramid {
    pub skew_rad: f64,
    pub wheel_momentum_nms: f64,
    pub max_gimbal_rate_rad_s: f64,
    pub singularity_eps: f64,
}

// What a user fills: the first `wheel_count` wheels and the first `thruster_count` thrusters count.
#[derive(Clone, Copy)]
pub struct Actuators {
    pub wheels: [Wheel; MAX_WHEELS],
    pub wheel_count: usize,
    pub thrusters: [Thruster; MAX_THRUSTERS],
    pub thruster_count: usize,
    pub cmgs: Option<CmgPyramid>,
}

// Prepared actuators: unit axes and limits in flat tables, three numbers an axis.
#[derive(Clone, Copy)]
pub struct ActuatorMap {
    pub wheel_count: usize,
    pub thruster_count: usize,
    pub cmgs: Option<CmgPyramid>,
    pub wheel_axes: [f64; 24],
    pub wheel_torques: [f64; 8],
    pub wheel_momenta: [f64; 8],
    pub wheel_powers: [Option<f64>; MAX_WHEELS],
    pub thruster_axes: [f64; 36],
    pub thruster_torques: [f64; 12],
}

// A wheel with no numbers in it: what stands past the count.
pub fn blank_wheel() -> Wheel
    ensures { result ≡ Maps.blank_wheel }
{
    Wheel {
        axis: [0.0; 3],
        max_torque_nm: 0.0,
        max_momentum_nms: 0.0,
        max_power_w: None,
    }
}

// A thruster with no numbers in it: what stands past the count.
pub fn blank_thruster() -> Thruster
    ensures { result ≡ Maps.blank_thruster }
{
    Thruster {
        torque_axis: [0.0; 3],
        max_torque_nm: 0.0,
    }
}

// No actuators at all.
pub fn no_actuators() -> Actuators
    ensures { result ≡ Maps.no_actuators }
{
    Actuators {
        wheels: [blank_wheel(); MAX_WHEELS],
        wheel_count: 0,
        thrusters: [blank_thruster(); MAX_THRUSTERS],
        thruster_count: 0,
        cmgs: None,
    }
}

// A map of these counts and this pyramid with nothing in its tables.
pub fn unfilled(wheel_count: usize, thruster_count: usize, cmgs: Option<CmgPyramid>) -> ActuatorMap
    ensures { result ≡ Maps.unfilled wheel_count thruster_count cmgs }
{
    ActuatorMap {
        wheel_count,
        thruster_count,
        cmgs,
        wheel_axes: [0.0; 24],
        wheel_torques: [0.0; 8],
        wheel_momenta: [0.0; 8],
        wheel_powers: [None; MAX_WHEELS],
        thruster_axes: [0.0; 36],
        thruster_torques: [0.0; 12],
    }
}

// The map of no actuators.
pub fn blank_map() -> ActuatorMap
    ensures { result ≡ Maps.blank_map }
{
    unfilled(0, 0, None)
}

// How many gimbal rates a row has.
pub fn gimbals(cmgs: Option<CmgPyramid>) -> usize
    ensures { result ≡ Maps.gimbals cmgs }
{
    match cmgs {
        None => 0,
        Some(_) => 4,
    }
}

// There is no pyramid.
pub fn no_cmgs(cmgs: Option<CmgPyramid>) -> bool
    ensures { result ≡ Maps.no_cmgs cmgs }
{
    match cmgs {
        None => true,
        Some(_) => false,
    }
}

// No wheels, no thrusters, no pyramid.
pub fn is_empty(map: ActuatorMap) -> bool
    ensures { result ≡ Maps.is_empty map }
{
    (map.wheel_count == 0) & (map.thruster_count == 0) & no_cmgs(map.cmgs)
}

// Both counts are within the tables.
pub fn is_sized(map: ActuatorMap) -> bool
    ensures { result ≡ Maps.is_sized map }
{
    (map.wheel_count <= 8) & (map.thruster_count <= 12)
}

// Controls per row: 3 body torques with no actuators, else one a wheel, one a thruster and four of a pyramid.
pub fn control_dim(map: ActuatorMap) -> usize
    ensures { result ≡ Maps.control_dim map }
{
    if !is_sized(map) {
        return 0;
    }
    if is_empty(map) {
        return 3;
    }
    map.wheel_count + map.thruster_count + gimbals(map.cmgs)
}
