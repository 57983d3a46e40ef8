// actuators, controls: what is declared, prepared; rows of controls. Each takes what a user declares (see problem_numbers); the map is that of `prepare`,
// which is blank where it refuses.
ghost use Rattle.std.specs.Prelude.{◌≡◌};
ghost use Rattle.actuators.specs.Maps as Maps;
ghost use Rattle.actuators.specs.Prepare as Prepare;
ghost use Rattle.actuators.specs.Pyramid as Pyramid;
ghost use Rattle.actuators.specs.Answers as Answers;
ghost use Rattle.controls.specs.Controls as Controls;
ghost use Rattle.problem_numbers.specs.Declared as Declared;
ghost use Rattle.export_leaves.specs.Outcomes.{number, Answered, Placed};
ghost use Rattle.export_runs.specs.Rigs as Rigs;

use problem_numbers::{actuators_of, map_of};

// The unit axes, a refusal's number and place.
pub fn slew_prepare(
    c: &[usize; 11],
    v: &[f64; 100],
    wheel_axes: &mut [f64; 24],
    thruster_axes: &mut [f64; 36],
    place: &mut usize,
) -> usize
    ensures placed { Placed (Answers.of_prepared (Prepare.prepare (Declared.actuators c.now v.now))) result place.new }
    ensures wheel_axes_after { wheel_axes.new ≡ (Declared.map c.now v.now).wheel_axes }
    ensures thruster_axes_after { thruster_axes.new ≡ (Declared.map c.now v.now).thruster_axes }
{
    match actuators::prepare(actuators_of(c, v)) {
        Ok(map) => {
            let ws = map.wheel_axes;
            let ts = map.thruster_axes;
            *wheel_axes = ws;
            *thruster_axes = ts;
            *place = 0;
            0
        }
        Err(refusal) => {
            *wheel_axes = [0.0; 24];
            *thruster_axes = [0.0; 36];
            *place = refusal.place;
            refusal.number
        }
    }
}

// Controls in a row.
pub fn slew_control_dim(c: &[usize; 11], v: &[f64; 100]) -> usize
    ensures { result ≡ Maps.control_dim (Declared.map c.now v.now) }
{
    let map = map_of(c, v);
    actuators::control_dim(map)
}

// A pyramid's Jacobian by rows; zeros where an angle is outside.
pub fn slew_pyramid_a(skew: f64, delta: &[f64; 4], out: &mut [f64; 12]) -> usize
    ensures value { result ≡ number (Answers.of_jacobian (Pyramid.pyramid_a skew delta.now)) }
    ensures out_after { out.new ≡ Pyramid.matrix_or_zeros (Pyramid.pyramid_a skew delta.now) }
{
    match actuators::pyramid::pyramid_a(skew, *delta) {
        Ok(a) => {
            *out = a;
            0
        }
        Err(refusal) => {
            *out = [0.0; 12];
            refusal.number
        }
    }
}

// The torque of a row u; zeros where it is refused.
pub fn slew_body_torque(
    c: &[usize; 11],
    v: &[f64; 100],
    u: &[f64],
    omega: &[f64; 3],
    h: &[f64; 3],
    delta: &[f64; 4],
    out: &mut [f64; 3],
) -> usize
    ensures { Rigs.TorqueTold
        (Controls.body_torque (Declared.map c.now v.now) u.now omega.now h.now delta.now)
        result out.new }
{
    let map = map_of(c, v);
    match controls::body_torque(map, u, *omega, *h, *delta) {
        Ok(tau) => {
            *out = tau;
            0
        }
        Err(refusal) => {
            *out = [0.0; 3];
            refusal.number
        }
    }
}

// A row held to its limits.
pub fn slew_project_controls(c: &[usize; 11], v: &[f64; 100], u: &mut [f64], limit: &[f64; 3])
    ensures { u.new ≡ Controls.project_controls (Declared.map c.now v.now) limit.now u.old }
{
    let map = map_of(c, v);
    controls::project_controls(map, u, *limit);
}

// The row of controls that gives a body torque, zeros past it; zeros where it is refused.
pub fn slew_allocate_body_torque(
    c: &[usize; 11],
    v: &[f64; 100],
    tau: &[f64; 3],
    out: &mut [f64; 20],
    place: &mut usize,
) -> usize
    ensures { Rigs.RowTold (Declared.map c.now v.now) tau.now result place.new out.new }
{
    let map = map_of(c, v);
    match actuators::allocate_body_torque(map, *tau) {
        Ok(u) => {
            *out = u;
            *place = 0;
            0
        }
        Err(refusal) => {
            *out = [0.0; 20];
            *place = refusal.place;
            refusal.number
        }
    }
}

// A refusal's number, or 0, and then the measure is put into `out`.
fn put_measure(m: Option<f64>, out: &mut f64) -> usize
    ensures { Answered (Answers.of_measure m) result out.old out.new }
{
    match m {
        Some(x) => {
            *out = x;
            0
        }
        None => 11,
    }
}

// How far the actuators are from singular at these gimbal angles.
pub fn slew_singularity(c: &[usize; 11], v: &[f64; 100], delta: &[f64; 4], out: &mut f64) -> usize
    ensures { Answered (Answers.of_measure (Pyramid.singularity (Declared.map c.now v.now) delta.now)) result
        out.old out.new }
{
    let map = map_of(c, v);
    put_measure(actuators::singularity(map, *delta), out)
}

// By how much a wheel's power passes its declared limit at most.
pub fn slew_power_excess(c: &[usize; 11], v: &[f64; 100], u: &[f64], omega: &[f64; 3]) -> f64
    ensures { result ≡ Controls.power_excess (Declared.map c.now v.now) u.now omega.now }
{
    let map = map_of(c, v);
    controls::power_excess(map, u, *omega)
}

// By how much a wheel's momentum passes its limit at most.
pub fn slew_momentum_excess(c: &[usize; 11], v: &[f64; 100], wheel_momenta: &[f64]) -> f64
    ensures { result ≡ Controls.momentum_excess (Declared.map c.now v.now) wheel_momenta.now }
{
    let map = map_of(c, v);
    controls::momentum_excess(map, wheel_momenta)
}

// Each wheel's rate of momentum under a row u, zeros past the wheels.
pub fn slew_wheel_momentum_rates(c: &[usize; 11], v: &[f64; 100], u: &[f64], out: &mut [f64; 8])
    ensures { out.new ≡ Controls.wheel_momentum_rates (Declared.map c.now v.now) u.now }
{
    let map = map_of(c, v);
    *out = controls::wheel_momentum_rates(map, u);
}

// The momentum stored in the wheels, in the body's axes.
pub fn slew_body_momentum(
    c: &[usize; 11],
    v: &[f64; 100],
    wheel_momenta: &[f64],
    out: &mut [f64; 3],
)
    ensures { out.new ≡ Controls.body_momentum (Declared.map c.now v.now) wheel_momenta.now }
{
    let map = map_of(c, v);
    *out = controls::body_momentum(map, wheel_momenta);
}
