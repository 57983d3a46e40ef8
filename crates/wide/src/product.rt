// Products of two words, as two words.
ghost use Rattle.std.specs.Prelude.{◌≡◌, ◌+◌, ◌*◌, ◌/◌, ◌%◌, ◌^◌, ◌<◌, nat_lt};

use std::num::wrapping_add_u64;

// A number of two words, hi * 2^64 + lo.
#[derive(Clone, Copy)]
pub struct Wide {
    pub hi: u64,
    pub lo: u64,
}

// The upper word of u * v.
pub fn high_product(u: u64, v: u64) -> u64
    ensures { result ≡ u * v / 2 ^ 64 }
{
    let u0 = u % 0x1_0000_0000;
    let u1 = u >> 32;
    let v0 = v % 0x1_0000_0000;
    let v1 = v >> 32;
    let t = u1 * v0 + ((u0 * v0) >> 32);
    let w = u0 * v1 + t % 0x1_0000_0000;
    u1 * v1 + (t >> 32) + (w >> 32)
}

// The lower word of u * v.
pub fn low_product(u: u64, v: u64) -> u64
    ensures { result ≡ u * v % 2 ^ 64 }
{
    let u0 = u % 0x1_0000_0000;
    let v0 = v % 0x1_0000_0000;
    let c = wrapping_add_u64(u0 * (v >> 32), (u >> 32) * v0);
    wrapping_add_u64(c << 32, u0 * v0)
}

// u * v.
pub fn product(u: u64, v: u64) -> Wide
    ensures { result.hi * 2 ^ 64 + result.lo ≡ u * v }
{
    Wide {
        hi: high_product(u, v),
        lo: low_product(u, v),
    }
}

// Whether s * s is above hi * 2^64 + lo.
pub fn above(s: u64, hi: u64, lo: u64) -> bool
    ensures { result ≡ nat_lt (hi * 2 ^ 64 + lo) (s * s) }
{
    let h = high_product(s, s);
    if h == hi {
        lo < low_product(s, s)
    } else {
        hi < h
    }
}

// w + x.
pub fn raised(w: Wide, x: u64) -> Wide
    requires { w.hi < 2 ^ 63 }
    ensures { (result.hi * 2 ^ 64 + result.lo ≡ w.hi * 2 ^ 64 + w.lo + x) × (result.lo ≡ (w.lo + x) % 2 ^ 64) }
{
    let c = wrapping_add_u64(w.lo, x);
    if c < w.lo {
        Wide {
            hi: w.hi + 1,
            lo: c,
        }
    } else {
        Wide { hi: w.hi, lo: c }
    }
}
