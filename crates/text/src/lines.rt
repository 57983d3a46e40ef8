// A line of the program's text: what it begins with, its words, what it ends with. Blanks are free between two words, and nowhere else.
ghost use Rattle.std.specs.Prelude.{◌≡◌, ◌≤◌, length};
ghost use Rattle.text.specs.Forms.{loose};
ghost use Rattle.text.specs.Lines as Lines;

use crate::hex::{byte, past_blanks, real_at};
use crate::places::put;

// What stands between a line's head and its tail: so many floats; or so many, and then a limit or `none`; or any number of floats.
#[derive(Clone, Copy)]
pub enum Words {
    Floats(usize),
    Limited(usize),
    Any,
}

// The floats of a line: how many they are, the first nine of them, the last as a limit, and the position after them.
#[derive(Clone, Copy)]
pub struct Row {
    pub at: usize,
    pub count: usize,
    pub v: [f64; 9],
    pub limit: Option<f64>,
}

// Whether the bytes of w stand at a position.
pub fn is_at(s: &[u8], at: usize, w: &[u8]) -> bool
    ensures { Lines.IsAt s.now at w.now result }
{
    at <= s.len() && s[at..].starts_with(w)
}

// A row of no floats at a position.
pub fn no_floats(at: usize) -> Row
    ensures { result ≡ Lines.no_floats at }
{
    Row {
        at,
        count: 0,
        v: [0.0; 9],
        limit: None,
    }
}

// Blanks and a float.
#[tactic(auto, unfolding(crate::specs::Lines::word_at))]
fn word_at(s: &[u8], at: usize) -> Option<(f64, usize)>
    requires { at ≤ length s.now }
    ensures { Lines.WordIs s.now at result }
{
    if byte(s, at) != b' ' {
        return None;
    }
    real_at(s, past_blanks(s, at + 1))
}

// As many blanks and floats as stand at a position; of floats past the ninth only the last is kept, as a limit.
fn row_at(s: &[u8], at: usize) -> Row
    requires { at ≤ length s.now }
    ensures { result ≡ Lines.row_at loose s.now at }
{
    let mut r = no_floats(at);
    for k in 0..s.len() {
        let Some((x, next)) = word_at(s, r.at) else {
            return r;
        };
        r = Row {
            at: next,
            count: k + 1,
            v: put(r.v, k, x),
            limit: Some(x),
        };
    }
    r
}

// A row of n floats.
#[tactic(auto, unfolding(crate::specs::Lines::floats))]
fn floats(r: Row, n: usize) -> Option<Row>
    ensures { result ≡ Lines.floats n r }
{
    if r.count == n { Some(r) } else { None }
}

// A row of n floats with `none` behind them, or of one more, which is the limit.
#[tactic(auto, unfolding(crate::specs::Lines::limited))]
fn limited(s: &[u8], r: Row, n: usize) -> Option<Row>
    ensures { result ≡ Lines.limited loose s.now n r }
{
    if r.count == n {
        return without_limit(s, r);
    }
    if r.count > n && r.count - n == 1 {
        Some(r)
    } else {
        None
    }
}

// A row with `none` behind it.
#[tactic(auto, unfolding(crate::specs::Lines::without_limit, crate::specs::Lines::none_at))]
fn without_limit(s: &[u8], r: Row) -> Option<Row>
    ensures { result ≡ Lines.without_limit loose s.now r }
{
    if byte(s, r.at) != b' ' {
        return None;
    }
    let word = past_blanks(s, r.at + 1);
    if !is_at(s, word, b"none") {
        return None;
    }
    Some(Row {
        at: word + 4,
        limit: None,
        ..r
    })
}

// The words of a line.
#[tactic(auto, unfolding(crate::specs::Lines::words_at))]
fn words_at(s: &[u8], at: usize, words: Words) -> Option<Row>
    requires { at ≤ length s.now }
    ensures { result ≡ Lines.words_at loose s.now at words }
{
    let r = row_at(s, at);
    match words {
        Words::Floats(n) => floats(r, n),
        Words::Limited(n) => limited(s, r, n),
        Words::Any => Some(r),
    }
}

// A row with a line's tail behind it.
#[tactic(auto, unfolding(crate::specs::Lines::with_tail))]
fn with_tail(s: &[u8], r: Row, tail: &[u8]) -> Option<Row>
    ensures { result ≡ Lines.with_tail s.now tail.now r }
{
    if !is_at(s, r.at, tail) {
        return None;
    }
    Some(Row {
        at: r.at + tail.len(),
        ..r
    })
}

// A line: what it begins with, its words, what it ends with.
#[tactic(auto, unfolding(crate::specs::Lines::line_at))]
pub fn line_at(s: &[u8], at: usize, head: &[u8], words: Words, tail: &[u8]) -> Option<Row>
    ensures { result ≡ Lines.line_at loose s.now at (Lines.form head.now words tail.now) }
{
    if !is_at(s, at, head) {
        return None;
    }
    let r = words_at(s, at + head.len(), words)?;
    with_tail(s, r, tail)
}
