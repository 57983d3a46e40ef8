// The digits of IEEE 754's square root: a guess in floats, of which nothing is proved but its range, and a test in whole numbers that accepts or corrects it.
ghost use Rattle.std.specs.Prelude.{◌≡◌, ℕ, ◌+◌, ◌-◌, ◌*◌, ◌/◌, ◌%◌, ◌^◌, ◌<◌, ◌≤◌, IfSome, from_bits};
ghost use Rattle.std.specs.Float.{binary64};
ghost use Rattle.float.specs.Sqrt as Sqrt;
ghost use Rattle.float.specs.RootInner.{units_of, rounded, radicand};

use std::num::wrapping_sub_u64;
use wide::hint::root_hint;
use wide::isqrt::isqrt;
use wide::product::{Wide, above, product, raised};

// About 2^52 times the root of the number from 1 up to 4 whose pattern is g above that of 1. Nothing is proved of it but its range.
fn guess(g: u64) -> u64
    requires { g < 2 ^ 53 }
    ensures { (2 ^ 52 ≤ result) × (result < 2 ^ 54) }
{
    let v = root_hint(0x3ff0_0000_0000_0000 + g);
    let a = if v > 1.0 { v } else { 1.0 };
    0x10_0000_0000_0000
        + wrapping_sub_u64(f64::to_bits(a), 0x3ff0_0000_0000_0000) % 0x20_0000_0000_0000
}

// The number from 1 up to 4 whose pattern is g above that of 1, times 2^52.
fn argument(g: u64) -> u64
    requires { g < 2 ^ 53 }
    ensures { result ≡ radicand g }
{
    (0x10_0000_0000_0000 + g % 0x10_0000_0000_0000) * (1 + (g >> 52))
}

// What the guess s at the root of e * 2^52 leaves, e * 2^52 + 3 * s - 3 less s * s, where the root, rounded to the nearest, is s or a neighbour of it.
fn rest(s: u64, e: u64) -> Option<u64>
    requires { (2 ^ 52 ≤ s) × (s < 2 ^ 54) × (e < 2 ^ 54) }
    ensures { IfSome result (λ d. (s * s + d + 3 ≡ e * 2 ^ 52 + 3 * s) × (d < 6 * s)) }
{
    let n = raised(
        Wide {
            hi: e >> 12,
            lo: (e % 0x1000) * 0x10_0000_0000_0000,
        },
        3 * s - 3,
    );
    let p = product(s, s);
    let d = wrapping_sub_u64(n.lo, p.lo);
    let q = raised(p, d);
    if q.hi == n.hi && d < 6 * s {
        Some(d)
    } else {
        None
    }
}

// The root of n, rounded to the nearest whole number, where s * s + d is n + 3 * s - 3.
fn settled(s: u64, d: u64) -> u64
    requires { (2 ^ 52 ≤ s) × (s < 2 ^ 54) × (d < 6 * s) }
    ensures { (n : ℕ) → s * s + d + 3 ≡ n + 3 * s → result ≡ rounded n }
{
    let r = if d < 2 * s - 2 { s - 1 } else { s };
    if d < 4 * s - 2 { r } else { r + 1 }
}

// The root of e * 2^52, rounded to the nearest whole number, where the guess is of no use.
fn slow_root(e: u64) -> u64
    requires { (2 ^ 52 ≤ e) × (e < 2 ^ 54 - 1) }
    ensures { result ≡ rounded (e * 2 ^ 52) }
{
    let q = isqrt(e >> 12, (e % 0x1000) * 0x10_0000_0000_0000);
    if above(2 * q + 1, e >> 10, (e % 0x400) * 0x40_0000_0000_0000) {
        q
    } else {
        q + 1
    }
}

// The digits of the root of the number from 1 up to 4 whose pattern is g above that of 1. No loop, but for `isqrt`'s where the guess fails.
pub fn root_digits(g: u64) -> u64
    requires { g < 2 ^ 53 }
    ensures { (result ≡ rounded (radicand g * 2 ^ 52)) × (2 ^ 52 ≤ result) × (result < 2 ^ 53) }
{
    let s = guess(g);
    let e = argument(g);
    match rest(s, e) {
        Some(d) => settled(s, d),
        None => slow_root(e),
    }
}

// The shift that brings v's top bit to bit 52.
fn norm_shift(v: u64) -> u32
    requires { (0 < v) × (v < 2 ^ 52) }
    ensures { (2 ^ 52 ≤ v * 2 ^ result) × (v * 2 ^ result < 2 ^ 53) × (result ≤ 52) }
{
    u64::leading_zeros(v) - 11
}

// A number as a square times a number from 1 up to 4: that one's pattern less that of 1, and the exponent of the square's root.
#[derive(Clone, Copy)]
pub struct Norm {
    pub g: u64,
    pub k: u64,
}

// The number whose pattern is b.
pub fn normal(b: u64) -> Norm
    requires { (0 < b) × (b < 0x7ff0_0000_0000_0000) }
    ensures { (units_of b * 2 ^ 1074 ≡ radicand result.g * 2 ^ 52 * (2 ^ result.k * 2 ^ result.k)) × (result.g < 2 ^ 53) × (result.k < 2046) }
{
    if b < 0x10_0000_0000_0000 {
        let s = norm_shift(b);
        let j = 52 - s as u64;
        Norm {
            g: (j % 2) * 0x10_0000_0000_0000 + (b << s) % 0x10_0000_0000_0000,
            k: j / 2 + 485,
        }
    } else {
        Norm {
            g: (b + 0x10_0000_0000_0000) % 0x20_0000_0000_0000,
            k: ((b >> 52) + 1021) / 2,
        }
    }
}

// The pattern of the root of the number whose pattern is b.
pub fn root_bits(b: u64) -> u64
    requires { (0 < b) × (b < 0x7ff0_0000_0000_0000) }
    ensures { (from_bits binary64 result ≡ Sqrt.sqrt binary64 (from_bits binary64 b)) × (result < 0x7ff0_0000_0000_0000) }
{
    let n = normal(b);
    n.k * 0x10_0000_0000_0000 + root_digits(n.g)
}

// The same for a pattern at most 2^26 away from that of 1: halfway between the two, rounded down. What the root's series has after that is below half a unit.
pub fn near_root_bits(b: u64) -> u64
    requires { (0x3fef_ffff_fc00_0000 ≤ b) × (b < 0x3ff0_0000_0400_0000) }
    ensures { (from_bits binary64 result ≡ Sqrt.sqrt binary64 (from_bits binary64 b)) × (result < 0x7ff0_0000_0000_0000) }
{
    (b + 0x3ff0_0000_0000_0000) / 2
}
