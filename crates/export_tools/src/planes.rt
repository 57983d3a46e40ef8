// byte_planes: a column of up to 4,096 words, for the recorder the bits of doubles, as byte planes, and back. What stands in the output past the answer
// stays. The caller knows how much is written: 8 bytes for each word, a word for each 8 bytes.
ghost use Rattle.std.specs.Prelude.{◌≡◌};
ghost use Rattle.byte_planes.specs.Answers.{of_stored};
ghost use Rattle.byte_planes.specs.Calls.{encoded, encoded_out, decoded, decoded_out};
ghost use Rattle.export_leaves.specs.Outcomes.{number};

// A refusal's number, or 0.
fn number_of(written: Option<usize>) -> usize
    ensures { result ≡ number (of_stored written) }
{
    if written.is_some() { 0 } else { 28 }
}

// The planes of a column into `out`, the top bytes first.
pub fn slew_encode_planes(column: &[u64], out: &mut [u8]) -> usize
    ensures value { result ≡ number (of_stored (encoded column.now out.old)) }
    ensures out_after { out.new ≡ encoded_out column.now out.old }
{
    number_of(byte_planes::encode(column, out))
}

// The column of planes into `out`.
pub fn slew_decode_planes(bytes: &[u8], out: &mut [u64]) -> usize
    ensures value { result ≡ number (of_stored (decoded bytes.now out.old)) }
    ensures out_after { out.new ≡ decoded_out bytes.now out.old }
{
    number_of(byte_planes::decode(bytes, out))
}
