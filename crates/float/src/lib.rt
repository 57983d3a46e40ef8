// The helpers on f64 that Rust's standard library has as methods, and IEEE 754's square root.
#![tactic(auto)]

ghost use Rattle.std.specs.Prelude.{◌≡◌, T, from_bits};
ghost use Rattle.std.specs.Float.{binary64};
ghost use Rattle.std.specs.Float.Ieee.{lt, neg};
ghost use Rattle.std.specs.Float.Ieee.Scale.{finite};
ghost use Rattle.float.specs.Ops as Ops;
ghost use Rattle.float.specs.Sqrt as Sqrt;

use self::root::{near_root_bits, root_bits};
use std::num::{nearest_u64_to_f64, truncating_f64_to_u64};

mod root;

// The size of x; a zero comes out positive.
pub fn abs(x: f64) -> f64
    ensures { result ≡ Ops.abs x }
{
    if x < 0.0 {
        -x
    } else if x == 0.0 {
        0.0
    } else {
        x
    }
}

// The larger of two numbers; a NaN on either side is dropped.
pub fn max(a: f64, b: f64) -> f64
    ensures { result ≡ Ops.max a b }
{
    if a < b {
        b
    } else if a != a {
        b
    } else {
        a
    }
}

// The smaller of two numbers; a NaN on either side is dropped.
pub fn min(a: f64, b: f64) -> f64
    ensures { result ≡ Ops.min a b }
{
    if b < a {
        b
    } else if a != a {
        b
    } else {
        a
    }
}

// x, held between low and high; a NaN stays one.
pub fn clamp(x: f64, low: f64, high: f64) -> f64
    ensures { result ≡ Ops.clamp low high x }
{
    if x < low {
        low
    } else if x > high {
        high
    } else {
        x
    }
}

// Whether x is neither an infinity nor a NaN.
pub fn is_finite(x: f64) -> bool
    ensures { result ≡ finite x }
{
    let inf = f64::from_bits(0x7ff0_0000_0000_0000);
    if x < inf { -inf < x } else { false }
}

// The least whole number that is not below x, where x lies between 0 and 2^52.
fn next_whole(x: f64) -> f64
    requires { T (lt (from_bits binary64 0) x) × T (lt x (from_bits binary64 0x4330_0000_0000_0000)) }
    ensures { result ≡ Ops.ceil x }
{
    let n = truncating_f64_to_u64(x);
    let f = nearest_u64_to_f64(n);
    if f < x { nearest_u64_to_f64(n + 1) } else { f }
}

// The whole part of -x, negated, where x lies between -2^52 and 0.
fn cut(x: f64) -> f64
    requires { T (lt x (from_bits binary64 0)) × T (lt (neg (from_bits binary64 0x4330_0000_0000_0000)) x) }
    ensures { result ≡ Ops.ceil x }
{
    -nearest_u64_to_f64(truncating_f64_to_u64(-x))
}

// The least whole number that is not below x. From 2^52 on in size every f64 is one.
pub fn ceil(x: f64) -> f64
    ensures { result ≡ Ops.ceil x }
{
    if x > 0.0 {
        if x < 4503599627370496.0 {
            next_whole(x)
        } else {
            x
        }
    } else if x < 0.0 {
        if x > -4503599627370496.0 { cut(x) } else { x }
    } else {
        x
    }
}

// The square root of x, rounded to the nearest f64, a tie to the even one. The root of -0 is -0, that of a number below it is a NaN.
pub fn sqrt(x: f64) -> f64
    ensures { result ≡ Sqrt.sqrt binary64 x }
{
    if x > 0.0 {
        let b = f64::to_bits(x);
        if b < 0x7ff0_0000_0000_0000 {
            f64::from_bits(root_bits(b))
        } else {
            x
        }
    } else if x == 0.0 {
        x
    } else {
        0.0 / 0.0
    }
}

// The same, sooner where x is within 2^-27 of 1, as the squared length of an attitude is.
pub fn sqrt_near_one(x: f64) -> f64
    ensures { result ≡ Sqrt.sqrt binary64 x }
{
    if x > 0.0 {
        let b = f64::to_bits(x);
        if 0x3fef_ffff_fc00_0000 <= b {
            if b < 0x3ff0_0000_0400_0000 {
                return f64::from_bits(near_root_bits(b));
            }
        }
    }
    sqrt(x)
}
