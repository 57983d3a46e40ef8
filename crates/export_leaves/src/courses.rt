// profile: bang-coast-bang, switch times, the seed. A profile is its 22 numbers: theta, alpha, t_acc, t_coast, duration, omega_peak, the axis, the
// inertia by rows, q0. `place` gets a refusal's place, or 0.
ghost use Rattle.std.specs.Prelude.{◌≡◌};
ghost use Rattle.geom.specs.Answers as Turns;
ghost use Rattle.profile.specs.Profiles as Profiles;
ghost use Rattle.profile.specs.Seeds as Seeds;
ghost use Rattle.profile.specs.Answers as Answers;
ghost use Rattle.export_leaves.specs.Packed as Packed;
ghost use Rattle.export_leaves.specs.Courses as Courses;
ghost use Rattle.export_leaves.specs.Outcomes as Outcomes;
ghost use Rattle.export_leaves.specs.Outcomes.{Answered, AnsweredAt, of_quat};

use super::pack::{limit_of, numbers, place_of, profile_of, quat, three};
use super::shapes::put_turned;
use common::Refusal;
use profile::Profiled;

// A refusal's number, or 0, and then the three switching numbers are put into `out`.
fn put_switches(s: Result<(f64, f64, f64), Refusal>, out: &mut [f64; 3]) -> usize
    ensures { Answered (Answers.of_switches s) result out.old out.new }
{
    match s {
        Ok((acc, coast, peak)) => {
            *out = three(acc, coast, peak);
            0
        }
        Err(refusal) => refusal.number,
    }
}

// A refusal's number, or 0, and then the acceleration is put into `out`.
fn put_acceleration(a: Option<f64>, out: &mut f64) -> usize
    ensures { Answered (Answers.of_acceleration a) result out.old out.new }
{
    match a {
        Some(x) => {
            *out = x;
            0
        }
        None => 7,
    }
}

// A refusal's number, or 0, and then the numbers made are put into `out`.
fn put_made(fate: Result<(), Refusal>, made: [f64; 22], out: &mut [f64; 22]) -> usize
    ensures { Answered (Turns.of_fate made fate) result out.old out.new }
{
    match fate {
        Ok(()) => {
            *out = made;
            0
        }
        Err(refusal) => refusal.number,
    }
}

// A refusal's number, or 0, and then the profile's numbers are put into `out`.
pub fn put_profile(p: Profiled, out: &mut [f64; 22]) -> usize
    ensures { Answered (Outcomes.of_profiled p) result out.old out.new }
{
    let fate = p.fate;
    let made = p.profile;
    put_made(fate, numbers(made), out)
}

pub fn slew_switch_times(
    theta: f64,
    alpha: f64,
    limited: bool,
    slew: f64,
    out: &mut [f64; 3],
) -> usize
    ensures { Answered (Answers.of_switches (Profiles.switch_times theta alpha (Packed.limit limited slew))) result out.old out.new }
{
    put_switches(
        profile::switch_times(theta, alpha, limit_of(limited, slew)),
        out,
    )
}

pub fn slew_alpha_from_box(j: &[f64; 9], axis: &[f64; 3], limit: &[f64; 3], out: &mut f64) -> usize
    ensures { Answered (Courses.alpha_from_box j.now axis.now limit.now) result out.old out.new }
{
    let about = *axis;
    let most = *limit;
    put_acceleration(profile::alpha_from_box(geom::tensor(*j), about, most), out)
}

pub fn slew_bang_coast_bang(
    q0: &[f64; 4],
    qf: &[f64; 4],
    j: &[f64; 9],
    limit: &[f64; 3],
    limited: bool,
    slew: f64,
    tie: f64,
    out: &mut [f64; 22],
    place: &mut usize,
) -> usize
    ensures { AnsweredAt
        (Courses.bang_coast_bang q0.now qf.now j.now limit.now limited slew tie)
        result place.new out.old out.new }
{
    let most = *limit;
    let from = quat(q0);
    let to = quat(qf);
    let inertia = geom::tensor(*j);
    let top = limit_of(limited, slew);
    let p = profile::bang_coast_bang(from, to, inertia, most, top, tie);
    let fate = p.fate;
    *place = place_of(fate);
    put_profile(p, out)
}

pub fn slew_profile_angle(p: &[f64; 22], t: f64) -> f64
    ensures { result ≡ Profiles.angle (Packed.profile p.now) t }
{
    profile_of(p).angle(t)
}

pub fn slew_profile_rate(p: &[f64; 22], t: f64) -> f64
    ensures { result ≡ Profiles.rate (Packed.profile p.now) t }
{
    profile_of(p).rate(t)
}

pub fn slew_profile_alpha_signed(p: &[f64; 22], t: f64) -> f64
    ensures { result ≡ Profiles.alpha_signed (Packed.profile p.now) t }
{
    profile_of(p).alpha_signed(t)
}

pub fn slew_profile_omega_vec(p: &[f64; 22], t: f64, out: &mut [f64; 3])
    ensures { out.new ≡ Profiles.omega_vec (Packed.profile p.now) t }
{
    *out = profile_of(p).omega_vec(t);
}

pub fn slew_profile_torque_vec(p: &[f64; 22], t: f64, out: &mut [f64; 3])
    ensures { out.new ≡ Profiles.torque_vec (Packed.profile p.now) t }
{
    *out = profile_of(p).torque_vec(t);
}

pub fn slew_profile_quaternion(p: &[f64; 22], t: f64, out: &mut [f64; 4]) -> usize
    ensures { Answered (of_quat (Turns.of_turned (Profiles.quaternion (Packed.profile p.now) t))) result out.old out.new }
{
    put_turned(profile_of(p).quaternion(t), out)
}

pub fn slew_sample_seed(p: &[f64; 22], rates: &mut [f64; 51], torques: &mut [f64; 51])
    ensures rates_after { rates.new ≡ (Seeds.sample_seed (Packed.profile p.now)).rates }
    ensures torques_after { torques.new ≡ (Seeds.sample_seed (Packed.profile p.now)).torques }
{
    let s = profile::sample_seed(profile_of(p));
    let w = s.rates;
    let u = s.torques;
    *rates = w;
    *torques = u;
}
