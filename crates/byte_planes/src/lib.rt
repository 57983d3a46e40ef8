// A column of 64-bit words as byte planes, and back: each word's bits are combined with its predecessor's by exclusive or, then all top bytes stand first, all
// next bytes after them, down to the lowest. Like bytes stand together, so a compressor finds more in them.
//
// A call answers the count of what it wrote, or none where it is refused (28), with the output untouched.
#![tactic(auto)]

ghost use Rattle.std.specs.Prelude.{◌≡◌, ◌+◌, ◌*◌, ◌≤◌, ◌<◌, ◌++◌, length, drop};
ghost use Rattle.std.proofs.Math.Seq.{paste};
ghost use Rattle.byte_planes.specs.Planes.{deltas, plane, word_at, restored};
ghost use Rattle.byte_planes.specs.Calls.{encoded, encoded_out, decoded, decoded_out};

// Writes plane j, the top one being 0, from place `at` on.
fn put_plane(column: &[u64], j: u64, at: usize, out: &mut [u8])
    requires { (j < 8) × (at + length column.now ≤ length out.old) }
    ensures { out.new ≡ paste out.old at (plane j (deltas column.now)) (length column.now) }
{
    let lower = 7 - j;
    let shift = 8 * lower;
    let mut previous: u64 = 0;
    for (i, &word) in column.iter().enumerate() {
        out[at + i] = (((word ^ previous) >> shift) % 256) as u8;
        previous = word;
    }
}

// Writes the byte planes of a column of up to 4,096 words.
#[tactic(auto, unfolding(crate::specs::Calls::fits_column, crate::specs::Calls::encoded, crate::specs::Calls::encoded_out, crate::specs::Planes::planes))]
pub fn encode(column: &[u64], out: &mut [u8]) -> Option<usize>
    ensures value { result ≡ encoded column.now out.old }
    ensures out_after { out.new ≡ encoded_out column.now out.old }
{
    if column.len() > 4096 {
        return None;
    }
    let n = column.len();
    let count = 8 * n;
    if out.len() < count {
        return None;
    }
    for j in 0..8 {
        put_plane(column, j as u64, j * n, out);
    }
    Some(count)
}

// Word i of n words whose bytes stand n apart, the top one first.
fn read_word(bytes: &[u8], n: usize, i: usize) -> u64
    requires { (i < n) × (8 * n ≤ length bytes.now) }
    ensures { result ≡ word_at bytes.now n i 8 }
{
    let mut w: u64 = 0;
    for j in 0..8 {
        w = w * 256 + bytes[j * n + i] as u64;
    }
    w
}

// Writes the column of n words whose planes the bytes are.
fn put_column(bytes: &[u8], n: usize, out: &mut [u64])
    requires { (8 * n ≤ length bytes.now) × (n ≤ length out.old) }
    ensures { out.new ≡ restored bytes.now n ++ drop n out.old }
{
    let mut previous: u64 = 0;
    for i in 0..n {
        previous ^= read_word(bytes, n, i);
        out[i] = previous;
    }
}

// Writes the column whose planes the bytes are: 8 for each of up to 4,096 words.
#[tactic(auto, unfolding(crate::specs::Calls::fits_planes, crate::specs::Calls::decoded, crate::specs::Calls::decoded_out))]
pub fn decode(bytes: &[u8], out: &mut [u64]) -> Option<usize>
    ensures value { result ≡ decoded bytes.now out.old }
    ensures out_after { out.new ≡ decoded_out bytes.now out.old }
{
    let n = bytes.len() / 8;
    if bytes.len() != 8 * n || n > 4096 || out.len() < n {
        return None;
    }
    put_column(bytes, n, out);
    Some(n)
}
