// One text for one problem (`export_tools::texts`).
ghost use Rattle.std.specs.Prelude.{◌≡◌};
ghost use Rattle.canonical.specs.CanonicalTexts as CanonicalTexts;
ghost use Rattle.export_leaves.specs.Outcomes.{fate_number, fate_place};

#[unsafe(no_mangle)]
pub extern "C" fn slew_canonical(
    text: &[u8],
    out: &mut [u8],
    bytes: &mut usize,
    place: &mut usize,
) -> usize
    ensures value { result ≡ fate_number (CanonicalTexts.told text.now out.old).fate }
    ensures out_after { out.new ≡ CanonicalTexts.left text.now out.old }
    ensures bytes_after { bytes.new ≡ (CanonicalTexts.told text.now out.old).bytes }
    ensures place_after { place.new ≡ fate_place (CanonicalTexts.told text.now out.old).fate }
{
    export_tools::texts::slew_canonical(text, out, bytes, place)
}
