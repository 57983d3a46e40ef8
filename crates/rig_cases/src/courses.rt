// The profile and the seed beside what is stored.
use cases::read::{at, real, reals, same, same_all, same_outcome};
use export_leaves::courses::{
    slew_alpha_from_box, slew_bang_coast_bang, slew_profile_alpha_signed, slew_profile_angle,
    slew_profile_omega_vec, slew_profile_quaternion, slew_profile_rate, slew_profile_torque_vec,
    slew_sample_seed, slew_switch_times,
};

fn switch_times(v: &[u64; 1024]) -> bool {
    let mut x = [0.0; 3];
    let with = at(v, 2) == 1;
    let refused = slew_switch_times(real(v, 0), real(v, 1), with, real(v, 3), &mut x);
    same_outcome(v, 4, refused, &x)
}

fn alpha_from_box(v: &[u64; 1024]) -> bool {
    let mut x = 0.0;
    let refused = slew_alpha_from_box(&reals(v, 0), &reals(v, 9), &reals(v, 12), &mut x);
    same_outcome(v, 15, refused, &[x])
}

fn bang_coast_bang(v: &[u64; 1024]) -> bool {
    let mut x = [0.0; 22];
    let mut place: usize = 0;
    let refused = slew_bang_coast_bang(
        &reals(v, 0),
        &reals(v, 4),
        &reals(v, 8),
        &reals(v, 17),
        at(v, 20) == 1,
        real(v, 21),
        real(v, 22),
        &mut x,
        &mut place,
    );
    if refused == 0 {
        return at(v, 23) == 0 && same_all(v, 25, &x);
    }
    at(v, 23) == refused as u64 && at(v, 24) == place as u64
}

// A number of a profile at a time, the number 22.
fn timed<F: FnOnce(&[f64; 22], f64) -> f64>(v: &[u64; 1024], call: F) -> bool
    requires { F.IsAlwaysCallable call }
{
    same(v, 23, call(&reals(v, 0), real(v, 22)))
}

// A vector of a profile at a time.
fn timed_vec<F: FnOnce(&[f64; 22], f64, &mut [f64; 3])>(v: &[u64; 1024], call: F) -> bool
    requires { F.IsAlwaysCallable call }
{
    let mut x = [0.0; 3];
    call(&reals(v, 0), real(v, 22), &mut x);
    same_all(v, 23, &x)
}

fn quaternion(v: &[u64; 1024]) -> bool {
    let mut x = [0.0; 4];
    let refused = slew_profile_quaternion(&reals(v, 0), real(v, 22), &mut x);
    same_outcome(v, 23, refused, &x)
}

fn seed(v: &[u64; 1024]) -> bool {
    let mut rates = [0.0; 51];
    let mut torques = [0.0; 51];
    slew_sample_seed(&reals(v, 0), &mut rates, &mut torques);
    same_all(v, 22, &rates) && same_all(v, 73, &torques)
}

pub fn holds(number: u64, v: &[u64; 1024]) -> bool {
    match number {
        150 => switch_times(v),
        151 => alpha_from_box(v),
        152 => bang_coast_bang(v),
        153 => timed(v, slew_profile_angle),
        154 => timed(v, slew_profile_rate),
        155 => timed(v, slew_profile_alpha_signed),
        156 => timed_vec(v, slew_profile_omega_vec),
        157 => timed_vec(v, slew_profile_torque_vec),
        158 => quaternion(v),
        159 => seed(v),
        _ => false,
    }
}
