// The operations on control rows that the specification names, over whole maps and every row.
// Carried over from quatopsy-plan/src/actuators.rs (Apache-2.0), changed: rows are lent slices, prepared actuators are flat tables, a refusal is a number
// and a place.
#![tactic(auto)]

ghost use Rattle.std.specs.Prelude.{◌≡◌, ◌≤◌};
ghost use Rattle.controls.specs.Controls as Controls;

use actuators::{ActuatorMap, CmgPyramid};
use common::{MAX_THRUSTERS, MAX_WHEELS, Refusal};
use control_rows::{Rig, WheelLaw};

// The wheels that a list of n numbers reaches.
fn paired(wheel_count: usize, n: usize) -> usize
    ensures { (result ≡ Controls.paired wheel_count n) × ((result ≤ 8) × (result ≤ n)) }
{
    if wheel_count > MAX_WHEELS {
        return 0;
    }
    control_limits::fewer(wheel_count, n)
}

// Each wheel's rate of momentum: its control, 0 where the row has none.
pub fn wheel_momentum_rates(map: ActuatorMap, u: &[f64]) -> [f64; 8]
    ensures { result ≡ Controls.wheel_momentum_rates map u.now }
{
    let n = paired(map.wheel_count, u.len());
    let mut out = [0.0; 8];
    for i in 0..n {
        out[i] = u[i];
    }
    out
}

// The momentum stored in the wheels, in the body's axes.
pub fn body_momentum(map: ActuatorMap, wheel_momenta: &[f64]) -> [f64; 3]
    ensures { result ≡ Controls.body_momentum map wheel_momenta.now }
{
    let n = paired(map.wheel_count, wheel_momenta.len());
    control_rows::body_momentum(&map.wheel_axes, n, wheel_momenta)
}

// By how much a wheel's momentum passes its limit at most.
pub fn momentum_excess(map: ActuatorMap, wheel_momenta: &[f64]) -> f64
    ensures { result ≡ Controls.momentum_excess map wheel_momenta.now }
{
    let n = paired(map.wheel_count, wheel_momenta.len());
    control_limits::momentum_excess(&map.wheel_momenta, n, wheel_momenta)
}

// By how much a wheel's power passes its declared limit at most.
pub fn power_excess(map: ActuatorMap, u: &[f64], omega: [f64; 3]) -> f64
    ensures { result ≡ Controls.power_excess map u.now omega }
{
    let n = paired(map.wheel_count, u.len());
    control_limits::power_excess(&map.wheel_axes, map.wheel_powers, n, u, omega)
}

// Which actuators a map has, under a law of their torque.
pub fn rig_under(law: WheelLaw, map: ActuatorMap) -> Rig
    ensures { result ≡ Controls.rig_under law map }
{
    Rig {
        wheel_count: map.wheel_count,
        thruster_count: map.thruster_count,
        cmgs: map.cmgs,
        law,
    }
}

// Which actuators a map has.
pub fn rig_of(map: ActuatorMap) -> Rig
    ensures { result ≡ Controls.rig_of map }
{
    rig_under(WheelLaw::Once, map)
}

// The counts are within the tables, and n numbers are as wide as a row with so many gimbal rates.
fn row_fits(r: Rig, gimbals: usize, n: usize) -> bool
    requires { gimbals ≤ 4 }
    ensures { result ≡ Controls.row_fits_value r gimbals n }
{
    if r.wheel_count > MAX_WHEELS {
        return false;
    }
    if r.thruster_count > MAX_THRUSTERS {
        return false;
    }
    if control_rows::is_bare(r) {
        return 3 <= n;
    }
    r.wheel_count + r.thruster_count + gimbals <= n
}

// A row held to its limits; where it does not fit the map it stays as it is.
pub fn project_controls(map: ActuatorMap, u: &mut [f64], torque_limit: [f64; 3])
    ensures { u.new ≡ Controls.project_controls map torque_limit u.old }
{
    let rig = rig_of(map);
    if !row_fits(rig, 0, u.len()) {
        return;
    }
    control_limits::project_row(
        rig,
        &map.wheel_torques,
        &map.thruster_torques,
        torque_limit,
        u,
    );
}

// The pyramid's matrix at these gimbal angles; without a pyramid zeros that nothing reads.
fn matrix(cmgs: Option<CmgPyramid>, delta: [f64; 4]) -> Result<[f64; 12], Refusal>
    ensures { result ≡ Controls.matrix cmgs delta }
{
    match cmgs {
        None => Ok([0.0; 12]),
        Some(p) => actuators::pyramid_a(p.skew_rad, delta),
    }
}

// The torque of a row that does not fit the map: refused with no actuators, as in the Rust, else zeros.
fn short_row(r: Rig) -> Result<[f64; 3], Refusal>
    ensures { result ≡ Controls.short_row_value r }
{
    if control_rows::is_bare(r) {
        return Err(Refusal {
            number: 8,
            place: 0,
        });
    }
    Ok([0.0; 3])
}

// The torque of a row: its wheel part, then the thruster part, then the gimbal part. A row that does not fit the map is refused with 8 where there are no
// actuators, else it gives zeros.
pub fn body_torque(
    map: ActuatorMap,
    u: &[f64],
    omega: [f64; 3],
    h: [f64; 3],
    delta: [f64; 4],
) -> Result<[f64; 3], Refusal>
    ensures { result ≡ Controls.body_torque map u.now omega h delta }
{
    let rig = rig_of(map);
    if !row_fits(rig, actuators::gimbals(map.cmgs), u.len()) {
        return short_row(rig);
    }
    let a = matrix(map.cmgs, delta)?;
    Ok(control_rows::row_torque(rig, &map.wheel_axes, &map.thruster_axes, u, omega, h, a))
}
