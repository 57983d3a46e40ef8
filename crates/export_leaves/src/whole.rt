// The whole square root.
ghost use Rattle.std.specs.Prelude.{◌≡◌, ◌+◌, ◌*◌, ◌^◌};
ghost use Rattle.wide.specs.Isqrt as Isqrt;

// The root of hi * 2^64 + lo, rounded down.
pub fn slew_isqrt(hi: u64, lo: u64) -> u64
    ensures { result ≡ Isqrt.isqrt (hi * 2 ^ 64 + lo) }
{
    wide::isqrt::isqrt(hi, lo)
}
