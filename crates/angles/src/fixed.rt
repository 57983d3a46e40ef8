// The one rounding: a whole number over 2^60, by its sign and size, to a float.
ghost use Rattle.std.specs.Prelude.{◌≡◌, ◌^◌, false};
ghost use Rattle.std.specs.Float.Ieee.{round};
ghost use Rattle.std.specs.Float.{binary64};
ghost use Rattle.angles.specs.Angles.{signed, to_float};

// n / 2^60, to nearest even. Each half of n over 2^60 is a float exactly, so only the sum rounds.
pub fn over_60(n: u64) -> f64
    ensures { result ≡ round binary64 false n (2 ^ 60) }
{
    ((n >> 32) as f64) * 3.7252902984619140625e-9
        + ((n & 0xffff_ffff) as f64) * 8.67361737988403547205962240695953369140625e-19
}

// The same with a sign, a zero being positive.
pub fn to_float(n: u64, negative: bool) -> f64
    ensures { result ≡ to_float (signed negative n) }
{
    let x = over_60(n);
    if negative {
        if n == 0 { x } else { -x }
    } else {
        x
    }
}
