// Bang-coast-bang profiles, switch times, the seed (`export_leaves::courses`). A profile is its 22 numbers.
ghost use Rattle.std.specs.Prelude.{◌≡◌};
ghost use Rattle.geom.specs.Answers as Turns;
ghost use Rattle.profile.specs.Profiles as Profiles;
ghost use Rattle.profile.specs.Seeds as Seeds;
ghost use Rattle.profile.specs.Answers as Answers;
ghost use Rattle.export_leaves.specs.Packed as Packed;
ghost use Rattle.export_leaves.specs.Courses as Courses;
ghost use Rattle.export_leaves.specs.Outcomes.{Answered, AnsweredAt, of_quat};

#[unsafe(no_mangle)]
pub extern "C" fn slew_switch_times(
    theta: f64,
    alpha: f64,
    limited: bool,
    slew: f64,
    out: &mut [f64; 3],
) -> usize
    ensures { Answered (Answers.of_switches (Profiles.switch_times theta alpha (Packed.limit limited slew))) result out.old out.new }
{
    export_leaves::courses::slew_switch_times(theta, alpha, limited, slew, out)
}

#[unsafe(no_mangle)]
pub extern "C" fn slew_alpha_from_box(
    j: &[f64; 9],
    axis: &[f64; 3],
    limit: &[f64; 3],
    out: &mut f64,
) -> usize
    ensures { Answered (Courses.alpha_from_box j.now axis.now limit.now) result out.old out.new }
{
    export_leaves::courses::slew_alpha_from_box(j, axis, limit, out)
}

#[unsafe(no_mangle)]
pub extern "C" fn slew_bang_coast_bang(
    q0: &[f64; 4],
    qf: &[f64; 4],
    j: &[f64; 9],
    limit: &[f64; 3],
    limited: bool,
    slew: f64,
    tie: f64,
    out: &mut [f64; 22],
    place: &mut usize,
) -> usize
    ensures { AnsweredAt
        (Courses.bang_coast_bang q0.now qf.now j.now limit.now limited slew tie)
        result place.new out.old out.new }
{
    export_leaves::courses::slew_bang_coast_bang(q0, qf, j, limit, limited, slew, tie, out, place)
}

#[unsafe(no_mangle)]
pub extern "C" fn slew_profile_angle(p: &[f64; 22], t: f64) -> f64
    ensures { result ≡ Profiles.angle (Packed.profile p.now) t }
{
    export_leaves::courses::slew_profile_angle(p, t)
}

#[unsafe(no_mangle)]
pub extern "C" fn slew_profile_rate(p: &[f64; 22], t: f64) -> f64
    ensures { result ≡ Profiles.rate (Packed.profile p.now) t }
{
    export_leaves::courses::slew_profile_rate(p, t)
}

#[unsafe(no_mangle)]
pub extern "C" fn slew_profile_alpha_signed(p: &[f64; 22], t: f64) -> f64
    ensures { result ≡ Profiles.alpha_signed (Packed.profile p.now) t }
{
    export_leaves::courses::slew_profile_alpha_signed(p, t)
}

#[unsafe(no_mangle)]
pub extern "C" fn slew_profile_omega_vec(p: &[f64; 22], t: f64, out: &mut [f64; 3])
    ensures { out.new ≡ Profiles.omega_vec (Packed.profile p.now) t }
{
    export_leaves::courses::slew_profile_omega_vec(p, t, out);
}

#[unsafe(no_mangle)]
pub extern "C" fn slew_profile_torque_vec(p: &[f64; 22], t: f64, out: &mut [f64; 3])
    ensures { out.new ≡ Profiles.torque_vec (Packed.profile p.now) t }
{
    export_leaves::courses::slew_profile_torque_vec(p, t, out);
}

#[unsafe(no_mangle)]
pub extern "C" fn slew_profile_quaternion(p: &[f64; 22], t: f64, out: &mut [f64; 4]) -> usize
    ensures { Answered (of_quat (Turns.of_turned (Profiles.quaternion (Packed.profile p.now) t))) result out.old out.new }
{
    export_leaves::courses::slew_profile_quaternion(p, t, out)
}

#[unsafe(no_mangle)]
pub extern "C" fn slew_sample_seed(p: &[f64; 22], rates: &mut [f64; 51], torques: &mut [f64; 51])
    ensures rates_after { rates.new ≡ (Seeds.sample_seed (Packed.profile p.now)).rates }
    ensures torques_after { torques.new ≡ (Seeds.sample_seed (Packed.profile p.now)).torques }
{
    export_leaves::courses::slew_sample_seed(p, rates, torques);
}
