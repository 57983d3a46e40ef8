// Actuators as declared, prepared; rows of controls (`export_runs::rigs`).
ghost use Rattle.std.specs.Prelude.{◌≡◌};
ghost use Rattle.actuators.specs.Maps as Maps;
ghost use Rattle.actuators.specs.Prepare as Prepare;
ghost use Rattle.actuators.specs.Pyramid as Pyramid;
ghost use Rattle.actuators.specs.Answers as Answers;
ghost use Rattle.controls.specs.Controls as Controls;
ghost use Rattle.problem_numbers.specs.Declared as Declared;
ghost use Rattle.export_leaves.specs.Outcomes.{number, Answered, Placed};
ghost use Rattle.export_runs.specs.Rigs as Rigs;

#[unsafe(no_mangle)]
pub extern "C" fn slew_prepare(
    c: &[usize; 11],
    v: &[f64; 100],
    wheel_axes: &mut [f64; 24],
    thruster_axes: &mut [f64; 36],
    place: &mut usize,
) -> usize
    ensures placed { Placed (Answers.of_prepared (Prepare.prepare (Declared.actuators c.now v.now))) result place.new }
    ensures wheel_axes_after { wheel_axes.new ≡ (Declared.map c.now v.now).wheel_axes }
    ensures thruster_axes_after { thruster_axes.new ≡ (Declared.map c.now v.now).thruster_axes }
{
    export_runs::rigs::slew_prepare(c, v, wheel_axes, thruster_axes, place)
}

#[unsafe(no_mangle)]
pub extern "C" fn slew_control_dim(c: &[usize; 11], v: &[f64; 100]) -> usize
    ensures { result ≡ Maps.control_dim (Declared.map c.now v.now) }
{
    export_runs::rigs::slew_control_dim(c, v)
}

#[unsafe(no_mangle)]
pub extern "C" fn slew_pyramid_a(skew: f64, delta: &[f64; 4], out: &mut [f64; 12]) -> usize
    ensures value { result ≡ number (Answers.of_jacobian (Pyramid.pyramid_a skew delta.now)) }
    ensures out_after { out.new ≡ Pyramid.matrix_or_zeros (Pyramid.pyramid_a skew delta.now) }
{
    export_runs::rigs::slew_pyramid_a(skew, delta, out)
}

#[unsafe(no_mangle)]
pub extern "C" fn slew_body_torque(
    c: &[usize; 11],
    v: &[f64; 100],
    u: &[f64],
    omega: &[f64; 3],
    h: &[f64; 3],
    delta: &[f64; 4],
    out: &mut [f64; 3],
) -> usize
    ensures { Rigs.TorqueTold
        (Controls.body_torque (Declared.map c.now v.now) u.now omega.now h.now delta.now)
        result out.new }
{
    export_runs::rigs::slew_body_torque(c, v, u, omega, h, delta, out)
}

#[unsafe(no_mangle)]
pub extern "C" fn slew_project_controls(
    c: &[usize; 11],
    v: &[f64; 100],
    u: &mut [f64],
    limit: &[f64; 3],
)
    ensures { u.new ≡ Controls.project_controls (Declared.map c.now v.now) limit.now u.old }
{
    export_runs::rigs::slew_project_controls(c, v, u, limit);
}

#[unsafe(no_mangle)]
pub extern "C" fn slew_allocate_body_torque(
    c: &[usize; 11],
    v: &[f64; 100],
    tau: &[f64; 3],
    out: &mut [f64; 20],
    place: &mut usize,
) -> usize
    ensures { Rigs.RowTold (Declared.map c.now v.now) tau.now result place.new out.new }
{
    export_runs::rigs::slew_allocate_body_torque(c, v, tau, out, place)
}

#[unsafe(no_mangle)]
pub extern "C" fn slew_singularity(
    c: &[usize; 11],
    v: &[f64; 100],
    delta: &[f64; 4],
    out: &mut f64,
) -> usize
    ensures { Answered (Answers.of_measure (Pyramid.singularity (Declared.map c.now v.now) delta.now)) result
        out.old out.new }
{
    export_runs::rigs::slew_singularity(c, v, delta, out)
}

#[unsafe(no_mangle)]
pub extern "C" fn slew_power_excess(
    c: &[usize; 11],
    v: &[f64; 100],
    u: &[f64],
    omega: &[f64; 3],
) -> f64
    ensures { result ≡ Controls.power_excess (Declared.map c.now v.now) u.now omega.now }
{
    export_runs::rigs::slew_power_excess(c, v, u, omega)
}

#[unsafe(no_mangle)]
pub extern "C" fn slew_momentum_excess(
    c: &[usize; 11],
    v: &[f64; 100],
    wheel_momenta: &[f64],
) -> f64
    ensures { result ≡ Controls.momentum_excess (Declared.map c.now v.now) wheel_momenta.now }
{
    export_runs::rigs::slew_momentum_excess(c, v, wheel_momenta)
}

#[unsafe(no_mangle)]
pub extern "C" fn slew_wheel_momentum_rates(
    c: &[usize; 11],
    v: &[f64; 100],
    u: &[f64],
    out: &mut [f64; 8],
)
    ensures { out.new ≡ Controls.wheel_momentum_rates (Declared.map c.now v.now) u.now }
{
    export_runs::rigs::slew_wheel_momentum_rates(c, v, u, out);
}

#[unsafe(no_mangle)]
pub extern "C" fn slew_body_momentum(
    c: &[usize; 11],
    v: &[f64; 100],
    wheel_momenta: &[f64],
    out: &mut [f64; 3],
)
    ensures { out.new ≡ Controls.body_momentum (Declared.map c.now v.now) wheel_momenta.now }
{
    export_runs::rigs::slew_body_momentum(c, v, wheel_momenta, out);
}
