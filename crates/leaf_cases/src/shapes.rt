// Attitudes, vectors and tensors beside what is stored. A call's floats are of a length of its own in each function below: a bound `FnOnce` takes no const
// parameter in its arguments, so that these don't become one.
ghost use Rattle.std.specs.Prelude.{◌<◌};

use cases::read::{real, reals, said, same, same_all, same_outcome};
use export_leaves::shapes::{
    slew_add3, slew_apply_tensor, slew_body_euler_torque, slew_cross, slew_det3, slew_dot3,
    slew_euler_lhs, slew_exp_so3, slew_invert_spd, slew_invert3, slew_is_spd, slew_log_so3,
    slew_norm3, slew_quat_conjugate, slew_quat_dot, slew_quat_is_finite, slew_quat_mul,
    slew_quat_negate, slew_quat_norm, slew_quat_normalized, slew_quat_scale, slew_rest,
    slew_scale3, slew_sub3, slew_torque_excess, slew_unit3,
};

// Whether a call puts the attitude at k.
fn attitude<F: FnOnce(&mut [f64; 4])>(v: &[u64; 1024], k: usize, call: F) -> bool
    requires place { k < 100 }
    requires call { F.IsAlwaysCallable call }
{
    let mut x = [0.0; 4];
    call(&mut x);
    same_all(v, k, &x)
}

// Whether a call puts the vector at k.
fn vector<F: FnOnce(&mut [f64; 3])>(v: &[u64; 1024], k: usize, call: F) -> bool
    requires place { k < 100 }
    requires call { F.IsAlwaysCallable call }
{
    let mut x = [0.0; 3];
    call(&mut x);
    same_all(v, k, &x)
}

// An attitude or a refusal; the answer's words start at k.
fn attitude_or<F: FnOnce(&mut [f64; 4]) -> usize>(v: &[u64; 1024], k: usize, call: F) -> bool
    requires place { k < 100 }
    requires call { F.IsAlwaysCallable call }
{
    let mut x = [0.0; 4];
    let refused = call(&mut x);
    same_outcome(v, k, refused, &x)
}

// A vector or a refusal.
fn vector_or<F: FnOnce(&mut [f64; 3]) -> usize>(v: &[u64; 1024], k: usize, call: F) -> bool
    requires place { k < 100 }
    requires call { F.IsAlwaysCallable call }
{
    let mut x = [0.0; 3];
    let refused = call(&mut x);
    same_outcome(v, k, refused, &x)
}

// An inverse or a refusal.
fn inverse_or<F: FnOnce(&[f64; 9], &mut [f64; 9]) -> usize>(v: &[u64; 1024], call: F) -> bool
    requires { F.IsAlwaysCallable call }
{
    let mut x = [0.0; 9];
    let refused = call(&reals(v, 0), &mut x);
    same_outcome(v, 9, refused, &x)
}

fn attitudes(number: u64, v: &[u64; 1024]) -> bool {
    let q: [f64; 4] = reals(v, 0);
    match number {
        50 => said(v, 4, slew_quat_is_finite(&q)),
        51 => same(v, 4, slew_quat_norm(&q)),
        52 => same(v, 8, slew_quat_dot(&q, &reals(v, 4))),
        53 => attitude(v, 5, |x| slew_quat_scale(&q, real(v, 4), x)),
        54 => attitude(v, 4, |x| slew_quat_negate(&q, x)),
        55 => attitude(v, 4, |x| slew_quat_conjugate(&q, x)),
        56 => attitude(v, 8, |x| slew_quat_mul(&q, &reals(v, 4), x)),
        57 => attitude_or(v, 5, |x| slew_quat_normalized(&q, real(v, 4), x)),
        58 => attitude_or(v, 3, |x| slew_exp_so3(&reals(v, 0), x)),
        59 => vector_or(v, 4, |x| slew_log_so3(&q, x)),
        _ => false,
    }
}

fn tensors(number: u64, v: &[u64; 1024]) -> bool {
    let j: [f64; 9] = reals(v, 0);
    let a: [f64; 3] = reals(v, 9);
    let b: [f64; 3] = reals(v, 12);
    match number {
        60 => vector(v, 12, |x| slew_apply_tensor(&j, &a, x)),
        61 => inverse_or(v, slew_invert3),
        62 => inverse_or(v, slew_invert_spd),
        63 => same(v, 9, slew_det3(&j)),
        64 => said(v, 9, slew_is_spd(&j)),
        65 => vector(v, 18, |x| slew_euler_lhs(&j, &a, &b, &reals(v, 15), x)),
        75 => vector(v, 17, |x| {
            slew_body_euler_torque(&j, &a, real(v, 15), real(v, 16), &b, x)
        }),
        _ => false,
    }
}

fn vectors(number: u64, v: &[u64; 1024]) -> bool {
    let a: [f64; 3] = reals(v, 0);
    let b: [f64; 3] = reals(v, 3);
    match number {
        66 => vector(v, 6, |x| slew_cross(&a, &b, x)),
        67 => vector(v, 6, |x| slew_add3(&a, &b, x)),
        68 => vector(v, 6, |x| slew_sub3(&a, &b, x)),
        69 => vector(v, 4, |x| slew_scale3(&a, real(v, 3), x)),
        70 => same(v, 6, slew_dot3(&a, &b)),
        71 => same(v, 3, slew_norm3(&a)),
        72 => vector_or(v, 3, |x| slew_unit3(&a, x)),
        73 => same(v, 6, slew_torque_excess(&a, &b)),
        74 => said(v, 4, slew_rest(&a, real(v, 3))),
        _ => false,
    }
}

pub fn holds(number: u64, v: &[u64; 1024]) -> bool {
    match number {
        50..=59 => attitudes(number, v),
        60..=65 | 75 => tensors(number, v),
        _ => vectors(number, v),
    }
}
