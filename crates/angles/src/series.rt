// The two series of sin and cos over sizes: whole numbers over 2^60, none negative. Each ends at its first zero term, which is counted. A term grows with the size
// u, so whether it is zero is told by u alone, without forming it or waiting for the terms before it: it is zero where u is below a number of that term
// (`sine_least`, `cosine_least`). A term that is formed waits for the one before it: three products in a row, or one where that is certain to give the same
// (`quick_term`), from the third term on.
ghost use Rattle.std.specs.Prelude.{◌≡◌, ℕ, ◌+◌, ◌*◌, ◌/◌, ◌^◌, ◌<◌, ◌≤◌, Bool};
ghost use Rattle.angles.specs.Angles.{signed};
ghost use Rattle.angles.specs.Ended.{sine_ended, cosine_ended, end_of};
ghost use Rattle.angles.specs.EndedInner.{stage_of, least_of, Ends};
ghost use Rattle.angles.specs.SizesInner.{next_of, square_of, Roomy, Small};

use wide::product::{high_product, low_product};

// t * u / 2^60.
pub fn mul_shift(t: u64, u: u64) -> u64
    requires { u < 2 ^ 60 }
    ensures { result ≡ t * u / 2 ^ 60 }
{
    high_product(t, u * 16)
}

// q / d as one product, with the whole number next above 2^64 / d: exact where q * d is below 2^64.
pub fn quotient(q: u64, d: u64) -> u64
    requires { (2 ≤ d) × (q * d < 2 ^ 64) }
    ensures { result ≡ q / d }
{
    high_product(q, 0xffff_ffff_ffff_ffff / d + 1)
}

// The term after t, with the divisor d.
pub fn next_term(t: u64, u: u64, d: u64) -> u64
    requires { (u < 2 ^ 60) × (2 ≤ d) × (t * d < 2 ^ 64) }
    ensures { result ≡ next_of u d t }
{
    quotient(mul_shift(mul_shift(t, u), u), d)
}

// The upper word of (16 u)^2.
pub fn square_of(u: u64) -> u64
    requires { u < 2 ^ 60 }
    ensures { result ≡ square_of u }
{
    high_product(u * 16, u * 16)
}

// The term after t as one product: the upper word of t times k, the square over d. The specification truncates t * u first, which takes less than u * 16 / d from the
// product's lower word, and k is too large by at most 2, which adds at most 2 * t. So a lower word of at least `least`, which has room for both, says that the upper
// word is the term; else the term is worked out as it stands.
pub fn quick_term(t: u64, u: u64, square: u64, d: u64, least: u64) -> u64
    requires { (u < 2 ^ 60) × (2 ≤ d) × (t * d < 2 ^ 64) × (square ≡ square_of u) × Roomy t u d least }
    ensures { result ≡ next_of u d t }
{
    let k = high_product(square, 0xffff_ffff_ffff_ffff / d) + 2;
    let r = high_product(t, k);
    if least <= low_product(t, k) {
        return r;
    }
    next_term(t, u, d)
}

// Term j + 1 after term j, which is t.
fn term_after(t: u64, j: u64, u: u64, square: u64, d: u64) -> u64
    requires { (u < 2 ^ 60) × (2 ≤ d) × (t * d < 2 ^ 64) × (square ≡ square_of u) × Small j t u d }
    ensures { result ≡ next_of u d t }
{
    if j < 2 {
        return next_term(t, u, d);
    }
    if j == 2 {
        return quick_term(t, u, square, d, (u >> 1) + (u >> 3) + 2);
    }
    if j == 3 {
        return quick_term(t, u, square, d, (u >> 2) + (u >> 4) + 2);
    }
    quick_term(t, u, square, d, (u >> 3) + (u >> 4) + 2)
}

// A series so far: its sum, its last term, and how many of its terms are not zero.
#[derive(Clone, Copy)]
pub struct Stage {
    pub sum: u64,
    pub term: u64,
    pub terms: u64,
}

// How a series ended: its sum, and how many terms it has up to its end, a zero one, which ends it, counted.
#[derive(Clone, Copy)]
pub struct Ended {
    pub sum: u64,
    pub terms: u64,
}

// Term j + 1, which is not zero, taken off or added: of the sine's series where c is 1, of the cosine's where it is 0.
fn further(p: Stage, c: u64, j: u64, u: u64, square: u64) -> Stage
    requires { (c ≤ 1) × (j ≤ 7) × (u < 2 ^ 60) × (square ≡ square_of u) × (p ≡ stage_of c u j) × (least_of c j ≤ u) }
    ensures { result ≡ stage_of c u (j + 1) }
{
    let t = term_after(p.term, j, u, square, (2 * j + 1 + c) * (2 * j + 2 + c));
    if j % 2 == 0 {
        Stage {
            sum: p.sum - t,
            term: t,
            terms: p.terms + 1,
        }
    } else {
        Stage {
            sum: p.sum + t,
            term: t,
            terms: p.terms + 1,
        }
    }
}

// The least size at which term j + 1 of the sine's series is not zero.
fn sine_least(j: u64) -> u64
    requires { j ≤ 7 }
    ensures { result ≡ least_of 1 j }
{
    match j {
        0 => 0x1d1_2ed2_267c,
        1 => 0x2_9aed_50e1_ffec,
        2 => 0x24_64bb_6214_09c0,
        3 => 0xa7_34c3_181a_e96b,
        4 => 0x1ca_94ce_9c3e_4988,
        5 => 0x3b3_2b12_811e_140a,
        6 => 0x66c_aa57_20cb_a010,
        _ => 0x9f2_295a_b5b9_8665,
    }
}

// The same of the cosine's.
fn cosine_least(j: u64) -> u64
    requires { j ≤ 7 }
    ensures { result ≡ least_of 0 j }
{
    match j {
        0 => 0x5a82_799a,
        1 => 0x46d3_e5c7_64b3,
        2 => 0xb_f9b1_5e1b_8e25,
        3 => 0x55_2d8c_3b53_3550,
        4 => 0x121_d79d_2445_41d6,
        5 => 0x2a5_02e5_9925_4674,
        6 => 0x4f5_d30b_eee9_f2a3,
        _ => 0x816_67ef_8f6d_a8a0,
    }
}

// The first stage of the sine's series.
fn sine_start(u: u64) -> Stage
    ensures { result ≡ stage_of 1 u 0 }
{
    if u == 0 {
        Stage {
            sum: 0,
            term: 0,
            terms: 0,
        }
    } else {
        Stage {
            sum: u,
            term: u,
            terms: 1,
        }
    }
}

// The first stage of the cosine's.
fn cosine_start() -> Stage
    ensures { (u : ℕ) → result ≡ stage_of 0 u 0 }
{
    Stage {
        sum: 0x1000_0000_0000_0000,
        term: 0x1000_0000_0000_0000,
        terms: 1,
    }
}

// The end after the ninth term.
fn closed(p: Stage) -> Ended
    requires { p.terms ≤ 9 }
    ensures { (c u : ℕ) → u < 2 ^ 60 → p ≡ stage_of c u 8 → Ends c u result.sum result.terms }
{
    if p.term == 0 {
        Ended {
            sum: p.sum,
            terms: p.terms + 1,
        }
    } else {
        Ended {
            sum: p.sum,
            terms: p.terms,
        }
    }
}

// The sine's series one term further; one that has ended stays as it is.
fn sine_step(p: Stage, j: u64, u: u64, square: u64) -> Stage
    requires { (j ≤ 7) × (u < 2 ^ 60) × (square ≡ square_of u) × (p ≡ stage_of 1 u j) }
    ensures { result ≡ stage_of 1 u (j + 1) }
{
    if u < sine_least(j) {
        Stage {
            sum: p.sum,
            term: 0,
            terms: p.terms,
        }
    } else {
        further(p, 1, j, u, square)
    }
}

// The same of the cosine's.
fn cosine_step(p: Stage, j: u64, u: u64, square: u64) -> Stage
    requires { (j ≤ 7) × (u < 2 ^ 60) × (square ≡ square_of u) × (p ≡ stage_of 0 u j) }
    ensures { result ≡ stage_of 0 u (j + 1) }
{
    if u < cosine_least(j) {
        Stage {
            sum: p.sum,
            term: 0,
            terms: p.terms,
        }
    } else {
        further(p, 0, j, u, square)
    }
}

// The sine's series: the term u and at most eight more. The steps are written one by one, so that each number in them is a literal and the compiler leads the
// way out of one past all later ones.
pub fn sine_size(u: u64) -> Ended
    requires { u < 2 ^ 60 }
    ensures { (b : Bool) → result ≡ end_of (sine_ended (signed b u)) }
{
    let square = square_of(u);
    let p0 = sine_start(u);
    let p1 = sine_step(p0, 0, u, square);
    let p2 = sine_step(p1, 1, u, square);
    let p3 = sine_step(p2, 2, u, square);
    let p4 = sine_step(p3, 3, u, square);
    let p5 = sine_step(p4, 4, u, square);
    let p6 = sine_step(p5, 5, u, square);
    let p7 = sine_step(p6, 6, u, square);
    let p8 = sine_step(p7, 7, u, square);
    closed(p8)
}

// The cosine's series: the term 1 and at most eight more.
pub fn cosine_size(u: u64) -> Ended
    requires { u < 2 ^ 60 }
    ensures { (b : Bool) → result ≡ end_of (cosine_ended (signed b u)) }
{
    let square = square_of(u);
    let p0 = cosine_start();
    let p1 = cosine_step(p0, 0, u, square);
    let p2 = cosine_step(p1, 1, u, square);
    let p3 = cosine_step(p2, 2, u, square);
    let p4 = cosine_step(p3, 3, u, square);
    let p5 = cosine_step(p4, 4, u, square);
    let p6 = cosine_step(p5, 5, u, square);
    let p7 = cosine_step(p6, 6, u, square);
    let p8 = cosine_step(p7, 7, u, square);
    closed(p8)
}

// How both series ended.
#[derive(Clone, Copy)]
pub struct Sums {
    pub sine: Ended,
    pub cosine: Ended,
}

// Both series, term by term, so that neither waits for the other. Each ends by itself.
pub fn both_sizes(u: u64) -> Sums
    requires { u < 2 ^ 60 }
    ensures { (b : Bool) → (result.sine ≡ end_of (sine_ended (signed b u))) × (result.cosine ≡ end_of (cosine_ended (signed b u))) }
{
    let square = square_of(u);
    let c0 = cosine_start();
    let s0 = sine_start(u);
    let c1 = cosine_step(c0, 0, u, square);
    let s1 = sine_step(s0, 0, u, square);
    let c2 = cosine_step(c1, 1, u, square);
    let s2 = sine_step(s1, 1, u, square);
    let c3 = cosine_step(c2, 2, u, square);
    let s3 = sine_step(s2, 2, u, square);
    let c4 = cosine_step(c3, 3, u, square);
    let s4 = sine_step(s3, 3, u, square);
    let c5 = cosine_step(c4, 4, u, square);
    let s5 = sine_step(s4, 4, u, square);
    let c6 = cosine_step(c5, 5, u, square);
    let s6 = sine_step(s5, 5, u, square);
    let c7 = cosine_step(c6, 6, u, square);
    let s7 = sine_step(s6, 6, u, square);
    let c8 = cosine_step(c7, 7, u, square);
    let s8 = sine_step(s7, 7, u, square);
    let s = closed(s8);
    let c = closed(c8);
    Sums { sine: s, cosine: c }
}
