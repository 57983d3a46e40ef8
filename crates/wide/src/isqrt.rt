// The whole square root of a number of two words: a guess in floats, of which nothing is proved, and a test in whole numbers that accepts it.
ghost use Rattle.std.specs.Prelude.{◌≡◌, ◌+◌, ◌*◌, ◌^◌, ◌<◌, true, if◌then◌else◌, nat_lt};
ghost use Rattle.wide.specs.Isqrt as Isqrt;

use super::hint::root_hint;
use super::product::{above, high_product, low_product};
use std::num::{nearest_u64_to_f64, truncating_f64_to_u64, wrapping_add_u64, wrapping_sub_u64};

// s with the digit b, unless its square is then above hi * 2^64 + lo.
fn digit(s: u64, b: u64, hi: u64, lo: u64) -> u64
    requires { s + b < 2 ^ 64 }
    ensures { result ≡ (if nat_lt (hi * 2 ^ 64 + lo) ((s + b) * (s + b)) then s else s + b) }
{
    if above(s + b, hi, lo) { s } else { s + b }
}

// The root of hi * 2^64 + lo, rounded down, digit by digit: 64 turns.
fn by_digits(hi: u64, lo: u64) -> u64
    ensures { result ≡ Isqrt.isqrt (hi * 2 ^ 64 + lo) }
{
    let mut s = 0;
    for k in (0..64u32).rev() {
        s = digit(s, 1 << k, hi, lo);
    }
    s
}

// The whole part of x, held between 0 and the largest word; a NaN counts as 0.
fn word(x: f64) -> u64 {
    if x > -1.0 {
        if x < 18446744073709551616.0 {
            truncating_f64_to_u64(x)
        } else {
            0xffff_ffff_ffff_ffff
        }
    } else {
        0
    }
}

// hi * 2^64 + lo as a float.
fn as_float(hi: u64, lo: u64) -> f64 {
    nearest_u64_to_f64(hi) * 18446744073709551616.0 + nearest_u64_to_f64(lo)
}

// The hint at x's root, or 0.
fn hint(x: f64) -> f64 {
    if x > 0.0 {
        let b = f64::to_bits(x);
        if b < 0x7ff0_0000_0000_0000 {
            return root_hint(b);
        }
    }
    0.0
}

// A step of Newton's iteration from the guess s: what is left, over 2 * s + 1, rounded down. The numbers that are added and taken away again keep both words of it positive.
fn closer(s: u64, hi: u64, lo: u64) -> u64 {
    let h = wrapping_add_u64(wrapping_sub_u64(hi, high_product(s, s)), 0x1_0000_0000);
    let l = nearest_u64_to_f64(lo) - nearest_u64_to_f64(low_product(s, s));
    let d = (nearest_u64_to_f64(h) - 4294967296.0) * 18446744073709551616.0 + l;
    let t = d / (2.0 * nearest_u64_to_f64(s) + 1.0);
    wrapping_sub_u64(wrapping_add_u64(s, word(t + 1048576.0)), 1048576)
}

// Whether s is the root of hi * 2^64 + lo, rounded down.
fn is_root(s: u64, hi: u64, lo: u64) -> bool
    ensures { result ≡ true → s ≡ Isqrt.isqrt (hi * 2 ^ 64 + lo) }
{
    if above(s, hi, lo) {
        false
    } else if s == 0xffff_ffff_ffff_ffff {
        true
    } else {
        above(s + 1, hi, lo)
    }
}

// The root of hi * 2^64 + lo, rounded down. At most three tests of the guess and its neighbours, and then 64 turns.
pub fn isqrt(hi: u64, lo: u64) -> u64
    ensures { result ≡ Isqrt.isqrt (hi * 2 ^ 64 + lo) }
{
    let s = closer(word(hint(as_float(hi, lo))), hi, lo);
    if is_root(s, hi, lo) {
        return s;
    }
    let a = wrapping_add_u64(s, 1);
    if is_root(a, hi, lo) {
        return a;
    }
    let b = wrapping_sub_u64(s, 1);
    if is_root(b, hi, lo) {
        b
    } else {
        by_digits(hi, lo)
    }
}
