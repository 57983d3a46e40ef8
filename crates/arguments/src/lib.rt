// What a program's argument says: a number in decimal digits. It stands apart so that a program that plans nothing is not built of the planner.
#![tactic(auto)]

ghost use Rattle.std.specs.Prelude.{◌≡◌};
ghost use Rattle.arguments.specs.Requests as Requests;

// n with one more digit: above 100,000 it is 100,001, which is refused all the same; none where the byte is no digit.
#[tactic(auto, unfolding(crate::specs::Requests::with_digit))]
fn with_digit(n: usize, b: u8) -> Option<usize>
    ensures { result ≡ Requests.with_digit n b }
{
    if !b.is_ascii_digit() {
        return None;
    }
    if n > 10_000 {
        return Some(100_001);
    }
    Some(10 * n + (b - b'0') as usize)
}

// The number of a word; none of an empty one, and of one with a byte that is no digit.
#[tactic(auto, unfolding(crate::specs::Requests::requested))]
pub fn read_requested(word: &[u8]) -> Option<usize>
    ensures { result ≡ Requests.requested word.now }
{
    if word.is_empty() {
        return None;
    }
    let mut n = 0;
    for b in word {
        n = with_digit(n, *b)?;
    }
    Some(n)
}
