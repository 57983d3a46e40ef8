// Columns as byte planes, and back (`export_tools::planes`).
ghost use Rattle.std.specs.Prelude.{◌≡◌};
ghost use Rattle.byte_planes.specs.Answers.{of_stored};
ghost use Rattle.byte_planes.specs.Calls.{encoded, encoded_out, decoded, decoded_out};
ghost use Rattle.export_leaves.specs.Outcomes.{number};

#[unsafe(no_mangle)]
pub extern "C" fn slew_encode_planes(column: &[u64], out: &mut [u8]) -> usize
    ensures value { result ≡ number (of_stored (encoded column.now out.old)) }
    ensures out_after { out.new ≡ encoded_out column.now out.old }
{
    export_tools::planes::slew_encode_planes(column, out)
}

#[unsafe(no_mangle)]
pub extern "C" fn slew_decode_planes(bytes: &[u8], out: &mut [u64]) -> usize
    ensures value { result ≡ number (of_stored (decoded bytes.now out.old)) }
    ensures out_after { out.new ≡ decoded_out bytes.now out.old }
{
    export_tools::planes::slew_decode_planes(bytes, out)
}
