// The count rule's parts. Carried over from `densify` of quatopsy-plan/src/scvx.rs (Apache-2.0), changed: a float is cast only where it is known to lie in range.
ghost use Rattle.std.specs.Prelude.{◌≡◌, ◌≤◌, max, pos};
ghost use Rattle.std.specs.Float.{binary64};
ghost use Rattle.std.specs.Float.Ieee.{of_int, to_unsigned};
ghost use Rattle.float.specs.Ops as Ops;
ghost use Rattle.samples.specs.Counts as Counts;
ghost use Rattle.samples.specs.CountInner.{Steps};

use std::num::truncating_f64_to_u64;

// The time between two samples that keeps the rate's samples consistent.
pub fn spacing(alpha: f64) -> f64
    ensures { result ≡ Counts.spacing alpha }
{
    2.0 * 1.0e-3 * 0.75 / float::max(alpha, 1.0e-6)
}

// The larger of two numbers.
pub fn larger(a: usize, b: usize) -> usize
    ensures { result ≡ max a b }
{
    if a < b { b } else { a }
}

// A count as a float.
pub fn whole(n: usize) -> f64
    requires { n ≤ 100000 }
    ensures { result ≡ of_int binary64 (pos n) }
{
    let i = n as i64;
    i as f64
}

// The least whole number that is not below x, where x lies between 0 and 99,999.
pub fn whole_above(x: f64) -> usize
    requires { Steps x }
    ensures { result ≡ to_unsigned 64 (Ops.ceil x) }
{
    let n = truncating_f64_to_u64(x) as usize;
    if whole(n) < x { n + 1 } else { n }
}
