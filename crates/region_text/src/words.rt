// A whole number in decimal, as the program's arguments have it: digits, after a minus where it is below 0.
ghost use Rattle.std.specs.Prelude.{◌≡◌, ◌≤◌};
ghost use Rattle.region_text.specs.Words as Words;

use arguments::read_requested;

// A size: above 1,000 it is 1,001, which is outside every range all the same.
fn clipped(n: usize) -> usize
    ensures { result ≡ Words.clipped n }
{
    n.min(1001)
}

// A size with its sign.
fn with_sign(below: bool, k: usize) -> i64
    requires { k ≤ 1001 }
    ensures { result ≡ Words.with_sign below k }
{
    if below { 0 - k as i64 } else { k as i64 }
}

// The number of a size, with its sign.
fn signed(below: bool, size: Option<usize>) -> Option<i64>
    ensures { result ≡ Words.signed below size }
{
    let n = size?;
    Some(with_sign(below, clipped(n)))
}

// The number of a word; none of a word that is no number.
pub fn read_whole(word: &[u8]) -> Option<i64>
    ensures { result ≡ Words.whole word.now }
{
    match word {
        [] => None,
        [b'-', size @ ..] => signed(true, read_requested(size)),
        _ => signed(false, read_requested(word)),
    }
}
