// A float of the program's text: its bits in hexadecimal, top digit first, 1 to 16 digits in either case; and the blanks before a word.
ghost use Rattle.std.specs.Prelude.{◌≡◌, ◌≤◌, length, get_or};
ghost use Rattle.text.specs.Forms as Forms;
ghost use Rattle.text.specs.Hex as Hexes;

// What stands at a position; past the end, 0.
pub fn byte(s: &[u8], at: usize) -> u8
    ensures { result ≡ get_or s.now at 0 }
{
    if at < s.len() { s[at] } else { 0 }
}

// A hexadecimal digit's value in either case; 16 of any other byte.
#[tactic(auto, unfolding(crate::specs::Hex::digit))]
pub fn hex_digit(b: u8) -> u8
    ensures { result ≡ Hexes.digit b }
{
    match b {
        b'0'..=b'9' => b - b'0',
        b'A'..=b'F' => b - b'A' + 10,
        b'a'..=b'f' => b - b'a' + 10,
        _ => 16,
    }
}

fn wide(x: u8) -> u64
    ensures { result ≡ x }
{
    x as u64
}

// The pattern at a position, with the position after its digits: one digit, and up to fifteen more, each at its weight.
pub fn hex_at(s: &[u8], at: usize) -> Option<(u64, usize)>
    requires { at ≤ length s.now }
    ensures { Hexes.HexIs s.now at result }
{
    let first = hex_digit(byte(s, at));
    if first >= 16 {
        return None;
    }
    let mut weight: u64 = 0x1000_0000_0000_0000;
    let mut m = wide(first) * weight;
    let end = at + 16;
    for i in at + 1..end {
        let d = hex_digit(byte(s, i));
        if d >= 16 {
            return Some((m, i));
        }
        weight /= 16;
        m += wide(d) * weight;
    }
    Some((m, end))
}

// The float of a pattern; every NaN's pattern is the NaN.
#[tactic(auto, using(crate::specs::DigitLaws::nan_is, crate::specs::DigitLaws::no_nan_bits))]
pub fn real_of(m: u64) -> f64
    ensures { result ≡ Hexes.float m }
{
    if m % 0x8000_0000_0000_0000 > 0x7ff0_0000_0000_0000 {
        return 0.0 / 0.0;
    }
    f64::from_bits(m)
}

// The float at a position, with the position after its digits.
#[tactic(auto, unfolding(crate::specs::Hex::real_at))]
pub fn real_at(s: &[u8], at: usize) -> Option<(f64, usize)>
    requires { at ≤ length s.now }
    ensures { Hexes.RealIs s.now at result }
{
    let (m, next) = hex_at(s, at)?;
    Some((real_of(m), next))
}

// The position after the blanks at a position.
pub fn past_blanks(s: &[u8], at: usize) -> usize
    requires { at ≤ length s.now }
    ensures { Forms.PastIs s.now at result }
{
    match s[at..].iter().position(|&b| b != b' ') {
        Some(blanks) => at + blanks,
        None => s.len(),
    }
}
