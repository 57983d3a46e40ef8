// canonical: one text for one problem. Answers 0, or 21 or 1 with its place, or 99 where less than 4,096 bytes are lent; beside a refusal the buffer is as it
// was.
ghost use Rattle.std.specs.Prelude.{◌≡◌};
ghost use Rattle.canonical.specs.CanonicalTexts as CanonicalTexts;
ghost use Rattle.export_leaves.specs.Outcomes.{fate_number, fate_place};

use canonical::canonical_text;
use export_leaves::pack::{number_of, place_of};

// The canonical text of a text into `out`, how many bytes it has, and the place of a refusal. What stands behind it stays.
pub fn slew_canonical(text: &[u8], out: &mut [u8], bytes: &mut usize, place: &mut usize) -> usize
    ensures value { result ≡ fate_number (CanonicalTexts.told text.now out.old).fate }
    ensures out_after { out.new ≡ CanonicalTexts.left text.now out.old }
    ensures bytes_after { bytes.new ≡ (CanonicalTexts.told text.now out.old).bytes }
    ensures place_after { place.new ≡ fate_place (CanonicalTexts.told text.now out.old).fate }
{
    let told = canonical_text(text, out);
    let fate = told.fate;
    *bytes = told.bytes;
    *place = place_of(fate);
    number_of(fate)
}
