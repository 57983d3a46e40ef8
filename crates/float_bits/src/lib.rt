// Whether two floats are the same bit for bit.
#![tactic(auto)]

ghost use Rattle.std.specs.Prelude.{◌≡◌};
ghost use Rattle.float_bits.specs.Bits as Bits;

// Whether two floats are the same bit for bit. -0 is not +0; all NaNs count as one.
pub fn same_bits(a: f64, b: f64) -> bool
    ensures { result ≡ Bits.same_bits a b }
{
    if a != a {
        return b != b;
    }
    if b != b {
        return false;
    }
    f64::to_bits(a) == f64::to_bits(b)
}
