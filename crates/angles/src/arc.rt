// acos: the whole square root and at most sixty terms.
ghost use Rattle.std.specs.Prelude.{◌≡◌, ℕ, ◌+◌, ◌*◌, ◌/◌, ◌^◌, ◌<◌, ◌≤◌, true};
ghost use Rattle.angles.specs.Arcs.{in_unit, root_of, arc_of};
ghost use Rattle.angles.specs.Ended.{arc_ended, arc_at, end_of};
ghost use Rattle.angles.specs.EndedInner.{part_at, ArcRun};
ghost use Rattle.angles.specs.SizesInner.{ArcAt, ArcFits};

use super::fixed::over_60;
use super::series::{Ended, mul_shift, quotient};
use std::num::truncating_f64_to_u64;
use wide::product::high_product;

// The sum of the terms so far, and the next p.
#[derive(Clone, Copy)]
pub struct Arc {
    pub sum: u64,
    pub p: u64,
}

// Term n, from 1, and the p after it, whose (2n + 1) / (2n + 2) is taken as one product, with 2^64 less 2^64 / (2n + 2).
fn arc_term(a: Arc, h: u64, n: u64) -> Arc
    requires { (h ≤ 2 ^ 59) × (n < 60) × ArcFits n a × (1 ≤ n) }
    ensures { ArcFits (n + 1) result × ((s : ℕ) → ArcAt h s n a → ArcAt h s (n + 1) result) }
{
    let share = 0x8000_0000_0000_0000 / (n + 1);
    Arc {
        sum: a.sum + quotient(a.p, 2 * n + 1),
        p: high_product(mul_shift(a.p, h), 0xffff_ffff_ffff_ffff - (share - 1)),
    }
}

// The terms so far, and how many were formed where the series has ended, else 0.
#[derive(Clone, Copy)]
pub struct Part {
    pub sum: u64,
    pub p: u64,
    pub terms: u64,
}

// Term 0, which is the root.
fn first_part(s: u64, h: u64) -> Part
    requires { (s ≤ 2 ^ 60) × (h ≤ 2 ^ 59) }
    ensures { ArcFits 1 (part_at result) × ArcRun h s 1 result }
{
    let q = mul_shift(s, h);
    if s == 0 {
        Part {
            sum: s,
            p: q / 2,
            terms: 1,
        }
    } else {
        Part {
            sum: s,
            p: q / 2,
            terms: 0,
        }
    }
}

// Terms `from` to `to`, up to the first that is zero.
fn arc_terms(start: Part, h: u64, from: u64, to: u64) -> Part
    requires { (h ≤ 2 ^ 59) × (from ≤ to) × (to ≤ 60) × ArcFits from (part_at start) × (1 ≤ from) }
    ensures { ArcFits to (part_at result) × ((s : ℕ) → ArcRun h s from start → ArcRun h s to result) }
{
    if start.terms != 0 {
        return Part {
            sum: start.sum,
            p: 0,
            terms: start.terms,
        };
    }
    let mut a = Arc {
        sum: start.sum,
        p: start.p,
    };
    let mut n = from;
    while n < to {
        if a.p < 2 * n + 1 {
            return Part {
                sum: a.sum,
                p: 0,
                terms: n + 1,
            };
        }
        a = arc_term(a, h, n);
        n = n + 1;
    }
    Part {
        sum: a.sum,
        p: a.p,
        terms: 0,
    }
}

// The sum of all sixty terms, and how many were formed: the parts' ends are literals, so that each divisor is one, and a part after the end stays as it is.
pub fn arc_sum(s: u64, h: u64) -> Ended
    requires { (s ≤ 2 ^ 60) × (h ≤ 2 ^ 59) }
    ensures { (result ≡ end_of (arc_ended h s)) × (result.sum ≤ 2 ^ 61) }
{
    let first = first_part(s, h);
    let a = arc_terms(first, h, 1, 10);
    let b = arc_terms(a, h, 10, 20);
    let c = arc_terms(b, h, 20, 30);
    let d = arc_terms(c, h, 30, 40);
    let e = arc_terms(d, h, 40, 50);
    let f = arc_terms(e, h, 50, 60);
    if f.terms == 0 {
        Ended {
            sum: f.sum,
            terms: 60,
        }
    } else {
        Ended {
            sum: f.sum,
            terms: f.terms,
        }
    }
}

// The whole square root of d * 2^59.
pub fn root_59(d: u64) -> u64
    requires { d ≤ 2 ^ 60 }
    ensures { (result ≡ root_of d) × (result ≤ 2 ^ 60) }
{
    wide::isqrt::isqrt(d >> 5, (d % 32) * 0x800_0000_0000_0000)
}

// The series at w, from 0 to 1.
pub fn arc_ended(w: f64) -> Ended
    requires { in_unit w ≡ true }
    ensures { (result ≡ end_of (arc_at w)) × (result.sum ≤ 2 ^ 61) }
{
    let x = truncating_f64_to_u64(w * 1152921504606846976.0);
    let d = 0x1000_0000_0000_0000 - x;
    arc_sum(root_59(d), d / 2)
}

// Twice its sum, over 2^60.
pub fn arc_cosine(w: f64) -> f64
    requires { in_unit w ≡ true }
    ensures { result ≡ arc_of w }
{
    let e = arc_ended(w);
    over_60(2 * e.sum)
}
