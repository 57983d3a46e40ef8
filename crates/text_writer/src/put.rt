// Bytes put into a lent buffer from a position on, each function answering the next position. Past the buffer's end nothing is put, so that room for the
// whole text is one fact at the top.
ghost use Rattle.std.specs.Prelude.{◌≡◌, ◌+◌, ◌*◌, ◌≤◌, ◌<◌, ◌^◌, [], ◌∷◌, length, set};
ghost use Rattle.std.proofs.Math.IntN.{sub_ℕ};
ghost use Rattle.text.specs.Hex as Hex;
ghost use Rattle.text_writer.specs.Puts.{Puts};
ghost use Rattle.text_writer.specs.Texts as Texts;

// One byte at a position; past the end, nothing.
pub fn put(b: &mut [u8], at: usize, x: u8)
    ensures { b.new ≡ set b.old at x }
{
    if at < b.len() {
        b[at] = x;
    }
}

// One byte.
pub fn put_byte(b: &mut [u8], at: usize, x: u8) -> usize
    requires { at < 2 ^ 32 }
    ensures { Puts b.old at (x ∷ []) 1 b.new result }
{
    put(b, at, x);
    at + 1
}

// The bytes of w.
pub fn put_all(b: &mut [u8], at: usize, w: &[u8]) -> usize
    requires { at < 2 ^ 32 }
    ensures { Puts b.old at w.now (length w.now) b.new result }
{
    for (k, x) in w.iter().enumerate() {
        put(b, at + k, *x);
    }
    at + w.len()
}

fn decimal_byte(d: usize) -> u8
    requires { d < 10 }
    ensures { result ≡ 48 + d }
{
    (48 + d) as u8
}

// A number in decimal, in at most so many places.
pub fn put_digits(b: &mut [u8], at: usize, places: usize, n: usize) -> usize
    requires { (at < 2 ^ 31) × (places ≤ 20) }
    ensures { Puts b.old at (Texts.digits places n) places b.new result }
{
    if places == 0 {
        return at;
    }
    if n < 10 {
        return put_byte(b, at, decimal_byte(n));
    }
    let i = put_digits(b, at, places - 1, n / 10);
    put_byte(b, i, decimal_byte(n % 10))
}

// x - m in decimal.
#[tactic(auto, using(crate::specs::PutLaws::puts_join, crate::specs::PutLaws::puts_most), unfolding(crate::specs::Texts::whole))]
pub fn put_less(b: &mut [u8], at: usize, x: usize, m: usize) -> usize
    requires { at < 2 ^ 29 }
    ensures { Puts b.old at (Texts.whole (sub_ℕ x m)) 21 b.new result }
{
    if x < m {
        let i = put_byte(b, at, b'-');
        return put_digits(b, i, 20, m - x);
    }
    put_digits(b, at, 20, x - m)
}

#[tactic(auto, unfolding(text::specs::Hex::digit_byte))]
fn hex_byte(d: u64) -> u8
    requires { d < 16 }
    ensures { result ≡ Hex.digit_byte d }
{
    if d < 10 {
        return (48 + d) as u8;
    }
    (55 + d) as u8
}

// A pattern of 64 bits in hexadecimal, from the top, with no zeros after the last other digit.
pub fn put_hex(b: &mut [u8], at: usize, x: u64) -> usize
    requires { at < 2 ^ 32 }
    ensures { Puts b.old at (Hex.hex_text 16 x) 16 b.new result }
{
    let mut weight: u64 = 0x1000_0000_0000_0000;
    put(b, at, hex_byte(x / weight));
    let mut rest = x % weight;
    let mut i = at + 1;
    while rest != 0 {
        weight /= 16;
        put(b, i, hex_byte(rest / weight));
        rest %= weight;
        i += 1;
    }
    i
}

// The bits of a float; of any NaN those of the one that is written.
fn bits_of(x: f64) -> u64
    ensures { result ≡ Texts.bits x }
{
    if x != x {
        return 0x7ff8_0000_0000_0000;
    }
    f64::to_bits(x)
}

// A blank and a float.
#[tactic(auto, using(crate::specs::PutLaws::puts_join, crate::specs::PutLaws::puts_most))]
pub fn put_word(b: &mut [u8], at: usize, x: f64) -> usize
    requires { at < 2 ^ 31 }
    ensures { Puts b.old at (Texts.word x) 17 b.new result }
{
    let i = put_byte(b, at, b' ');
    put_hex(b, i, bits_of(x))
}

// The n floats of v from `from` on, each after a blank.
pub fn put_words(b: &mut [u8], at: usize, v: &[f64], from: usize, n: usize) -> usize
    requires { (at < 2 ^ 30) × ((n ≤ 14) × (from + n ≤ length v.now)) }
    ensures { Puts b.old at (Texts.words v.now from n) (17 * n) b.new result }
{
    let mut i = at;
    for x in &v[from..from + n] {
        i = put_word(b, i, *x);
    }
    i
}
