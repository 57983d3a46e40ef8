// The argument of sin and cos as quarter turns and a rest.
ghost use Rattle.std.specs.Prelude.{◌≡◌, ℕ, ◌+◌, ◌*◌, ◌^◌, ◌<◌, ◌≤◌, false, T, pos, negsuc, from_bits, Float};
ghost use Rattle.std.specs.Float.{binary64, fin};
ghost use Rattle.std.specs.Float.Ieee.{lt, le};
ghost use Rattle.angles.specs.declared.Zone.TheVariants as Zone;
ghost use Rattle.angles.specs.Angles.{Q, signed, scaled, size_of, region_of};
ghost use Rattle.angles.specs.SizesInner.{TurnOf, Reduced};

// A quarter turn, times 2^60, and its half, rounded down.
const QUARTER: u64 = 0x1921_FB54_442D_1847;

const EIGHTH: u64 = 0xC90_FDAA_2216_8C23;

// A size as quarters and a rest.
#[derive(Clone, Copy)]
pub struct Shares {
    pub quarters: u64,
    pub rest: u64,
}

// x * 2^n as quarters and a rest: a division, and then one binary digit a turn.
pub fn divided(x: u64, n: u64) -> Shares
    requires { n ≤ 8 }
    ensures { (x * 2 ^ n ≡ result.quarters * Q + result.rest) × (result.rest < Q) × (result.quarters < 2 ^ 32) }
{
    let mut k = x / QUARTER;
    let mut r = x % QUARTER;
    let mut i = 0u64;
    while i < n {
        k = k * 2;
        r = r * 2;
        if QUARTER <= r {
            k = k + 1;
            r = r - QUARTER;
        }
        i = i + 1;
    }
    Shares {
        quarters: k,
        rest: r,
    }
}

// a * 2^60, truncated, as quarters and a rest, for an a from 2^-26 to 1,024.
pub fn split(a: f64) -> Shares
    requires fact_1 { T (le (fin false 1 (negsuc 25)) a) }
    requires fact_2 { T (le a (fin false 1 (pos 10))) }
    ensures { (size_of a ≡ result.quarters * Q + result.rest) × (result.rest < Q) × (result.quarters < 2 ^ 32) }
{
    let bits: u64 = f64::to_bits(a);
    let e: u64 = bits >> 52;
    let digits: u64 = (bits & 0xf_ffff_ffff_ffff) | 0x10_0000_0000_0000;
    if e <= 1015 {
        return divided(digits >> (1015 - e), 0);
    }
    let s = e - 1015;
    if s <= 10 {
        return divided(digits << s, 0);
    }
    divided(digits << 10, s - 10)
}

// Quarter turns and a rest of at most an eighth turn, which is taken off where `below`.
#[derive(Clone, Copy)]
pub struct Turn {
    pub quarter: u64,
    pub size: u64,
    pub below: bool,
}

// The nearest whole number of quarters to k quarters and r.
pub fn nearest_turn(k: u64, r: u64) -> Turn
    requires { (r < Q) × (k < 2 ^ 32) }
    ensures { TurnOf (k * Q + r) result.quarter result.size result.below }
{
    if r <= EIGHTH {
        Turn {
            quarter: k,
            size: r,
            below: false,
        }
    } else {
        Turn {
            quarter: k + 1,
            size: QUARTER - r,
            below: true,
        }
    }
}

// The same for a * 2^60.
pub fn place(a: f64) -> Turn
    requires fact_1 { T (le (fin false 1 (negsuc 25)) a) }
    requires fact_2 { T (le a (fin false 1 (pos 10))) }
    ensures { TurnOf (size_of a) result.quarter result.size result.below }
{
    let s = split(a);
    nearest_turn(s.quarters, s.rest)
}

// The size of an argument.
fn magnitude(x: f64) -> f64
    requires { region_of x ≡ Zone.Inside }
    ensures { T (le (fin false 1 (negsuc 25)) result) × T (le result (fin false 1 (pos 10))) × (scaled x ≡ signed (lt x (from_bits binary64 0)) (size_of result)) }
{
    if x < 0.0 { -x } else { x }
}

// The quarters, modulo 4, and the rest of an argument whose size is t's; a negative one's are negated.
fn mirrored(t: Turn, negative: bool) -> Turn
    ensures { (x : Float) (y : ℕ) → scaled x
        ≡ signed negative y → TurnOf y t.quarter t.size t.below → Reduced x result.quarter result.below result.size }
{
    if negative {
        Turn {
            quarter: (4 - t.quarter % 4) % 4,
            size: t.size,
            below: !t.below,
        }
    } else {
        Turn {
            quarter: t.quarter % 4,
            size: t.size,
            below: t.below,
        }
    }
}

// The argument's quarters, modulo 4, and its rest: one way for either sign, since a sign is as often one as the other.
pub fn reduced(x: f64) -> Turn
    requires { region_of x ≡ Zone.Inside }
    ensures { Reduced x result.quarter result.below result.size }
{
    let t = place(magnitude(x));
    mirrored(t, x < 0.0)
}
