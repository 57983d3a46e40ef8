// The words of a stored case: hexadecimal digits in lower case, one blank or line feed after each; a float stands by its bits.
ghost use Rattle.std.specs.Prelude.{◌≡◌, ◌+◌, ◌<◌, ◌≤◌, ◌↔◌, length, EachIndex, IfSome, IsTrue};
ghost use Rattle.common.specs.Lists.{at};
ghost use Rattle.cases.specs.Words as Words;

use std::array::from_fn;
use text::hex::{byte, real_of};

// A word and where the next one starts; `going` while its digits go on.
// No Option, since the programs' answers may not change: a word that goes on has a value and a place, from which they read on.
#[derive(Clone, Copy)]
pub struct Word {
    pub value: u64,
    pub next: usize,
    pub going: bool,
}

// A line's head: the function's number, how many words follow, and where they start.
#[derive(Clone, Copy)]
pub struct Case {
    pub number: u64,
    pub count: u64,
    pub next: usize,
}

// A digit's value; none of any other byte.
fn digit(b: u8) -> Option<u64>
    ensures is { result ≡ Words.digit b }
    ensures small { IfSome result (λ d. d < 16) }
{
    match b {
        b'0'..=b'9' => Some(u64::from(b - b'0')),
        b'a'..=b'f' => Some(u64::from(b - b'a' + 10)),
        _ => None,
    }
}

// One byte more of a word. A byte that is no digit ends it and is passed over; past the text's end the word goes on.
fn taken(s: &[u8], w: Word) -> Word
    ensures { result ≡ Words.taken s.now w }
{
    if !w.going || w.next >= s.len() {
        return w;
    }
    let next = w.next + 1;
    match digit(s[w.next]) {
        Some(d) => Word {
            value: w.value % 0x1000_0000_0000_0000 * 16 + d,
            next,
            going: true,
        },
        None => Word {
            next,
            going: false,
            ..w
        },
    }
}

// The word at a position: at most sixteen digits and what ends them.
pub fn word_at(s: &[u8], at: usize) -> Word
    ensures { result ≡ Words.word_at s.now at }
{
    let mut w = Word {
        value: 0,
        next: at,
        going: true,
    };
    for _ in 0..17usize {
        w = taken(s, w);
    }
    w
}

// Whether b stands before a position.
pub fn stands_before(s: &[u8], at: usize, b: u8) -> bool {
    at > 0 && byte(s, at - 1) == b
}

// The head of the line at a position.
pub fn head(s: &[u8], at: usize) -> Case {
    let number = word_at(s, at);
    let ins = word_at(s, number.next);
    let outs = word_at(s, ins.next);
    Case {
        number: number.value,
        count: ins.value % 1024 + outs.value % 1024,
        next: outs.next,
    }
}

// The next `count` words, as many as there is room for, and where they end.
pub fn words(s: &[u8], at: usize, count: u64, out: &mut [u64; 1024]) -> usize {
    let mut next = at;
    for x in out[..count.min(1024) as usize].iter_mut() {
        let w = word_at(s, next);
        *x = w.value;
        next = w.next;
    }
    next
}

// The word at k; past the end stands 0.
pub fn at(v: &[u64; 1024], k: usize) -> u64
    ensures { result ≡ Words.word v.now k }
{
    if k < 1024 { v[k] } else { 0 }
}

// The float at k.
pub fn real(v: &[u64; 1024], k: usize) -> f64
    ensures { result ≡ Words.real v.now k }
{
    real_of(at(v, k))
}

// The N floats from k on.
pub fn reals<const N: usize>(v: &[u64; 1024], k: usize) -> [f64; N]
    requires { (k < 2000) × (N ≤ 1000) }
{
    from_fn(|i| real(v, k + i))
}

// Whether x is the float at k, bit for bit, or both are NaN.
pub fn same(v: &[u64; 1024], k: usize, x: f64) -> bool
    ensures { result ≡ Words.same (Words.word v.now k) x }
{
    let w = at(v, k);
    if x == x {
        return f64::to_bits(x) == w;
    }
    let y = real_of(w);
    y != y
}

// Whether the floats from k on are these.
pub fn same_all(v: &[u64; 1024], k: usize, x: &[f64]) -> bool
    requires { (k < 2000) × (length x.now ≤ 1000) }
    ensures { IsTrue result ↔ EachIndex x.now (λ i. IsTrue (Words.same (Words.word v.now (k + i)) (at x.now i))) }
{
    x.iter().enumerate().all(|(i, y)| same(v, k + i, *y))
}

// Whether a call was answered as is stored: the word at k is a refusal's number, or 0 and the floats behind it are x.
pub fn same_outcome(v: &[u64; 1024], k: usize, refused: usize, x: &[f64]) -> bool
    requires { (k < 1000) × (length x.now ≤ 1000) }
    ensures number { IsTrue result → Words.word v.now k ≡ refused }
    ensures given { IsTrue result → refused ≡ 0 → EachIndex x.now (λ i. IsTrue (Words.same (Words.word v.now (k + 1 + i)) (at x.now i))) }
{
    at(v, k) == refused as u64 && (refused != 0 || same_all(v, k + 1, x))
}

// Whether the word at k says this.
pub fn said(v: &[u64; 1024], k: usize, b: bool) -> bool {
    at(v, k) == u64::from(b)
}
