// The whole square root (`export_leaves::whole`).
ghost use Rattle.std.specs.Prelude.{◌≡◌, ◌+◌, ◌*◌, ◌^◌};
ghost use Rattle.wide.specs.Isqrt as Isqrt;

#[unsafe(no_mangle)]
pub extern "C" fn slew_isqrt(hi: u64, lo: u64) -> u64
    ensures { result ≡ Isqrt.isqrt (hi * 2 ^ 64 + lo) }
{
    export_leaves::whole::slew_isqrt(hi, lo)
}
