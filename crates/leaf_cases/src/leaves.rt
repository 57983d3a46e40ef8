// The whole root, the helpers on floats, the square root and the angles beside what is stored.
use cases::read::{at, real, said, same, same_all};
use export_leaves::floats::{
    slew_abs, slew_ceil, slew_clamp, slew_is_finite, slew_max, slew_min, slew_sqrt,
};
use export_leaves::turns::{slew_acos, slew_cos, slew_sin, slew_sin_cos};
use export_leaves::whole::slew_isqrt;

// The number of a refused angle.
const OUTSIDE: u64 = 11;

// x, or +0 where a and b are zeros of different signs: there the Rust leaves the answer's sign free, and +0 is stored.
fn free(a: f64, b: f64, x: f64) -> f64 {
    if a == 0.0 && b == 0.0 && x == 0.0 && 1.0 / a != 1.0 / b {
        return 0.0;
    }
    x
}

// An angle's answer: 0 and the angle, or a refusal.
fn angle<F: FnOnce(f64, &mut f64) -> bool>(v: &[u64; 1024], call: F) -> bool
    requires { F.IsAlwaysCallable call }
{
    let mut x = 0.0;
    if call(real(v, 0), &mut x) {
        return at(v, 1) == 0 && same(v, 2, x);
    }
    at(v, 1) == OUTSIDE
}

// Both angles' answer: 0, the sine and the cosine, or a refusal.
fn both(v: &[u64; 1024]) -> bool {
    let mut x = [0.0; 2];
    if slew_sin_cos(real(v, 0), &mut x) {
        return at(v, 1) == 0 && same_all(v, 2, &x);
    }
    at(v, 1) == OUTSIDE
}

pub fn holds(number: u64, v: &[u64; 1024]) -> bool {
    let a = real(v, 0);
    let b = real(v, 1);
    match number {
        1 => slew_isqrt(at(v, 0), at(v, 1)) == at(v, 2),
        2 => same(v, 1, slew_abs(a)),
        3 => same(v, 2, free(a, b, slew_max(a, b))),
        4 => same(v, 2, free(a, b, slew_min(a, b))),
        5 => same(v, 3, slew_clamp(a, b, real(v, 2))),
        6 => said(v, 1, slew_is_finite(a)),
        7 => same(v, 1, slew_ceil(a)),
        8 => same(v, 1, slew_sqrt(a)),
        9 => angle(v, slew_sin),
        10 => angle(v, slew_cos),
        11 => angle(v, slew_acos),
        12 => both(v),
        _ => false,
    }
}
