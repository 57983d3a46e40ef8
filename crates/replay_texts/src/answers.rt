// Our answers beside the stored ones: a plan byte for byte, a sample word for word. Every plan is lent 8,000 numbers, as the program lends.
ghost use Rattle.std.specs.Prelude.{◌≤◌, length};

use cases::read::{at, real, reals, same_all, words};
use cases::tally::Group;
use plan_text::{Told, plan_text, plan_text_from};
use sample_text::sample_text;

// The plan of a text: from the caller's seed, or from our own.
fn plan(text: &[u8], seed: Option<&[f64]>, out: &mut [u8]) -> Told
    ensures { result.bytes ≤ length out.new }
{
    let mut ws = [0.0; 8000];
    match seed {
        Some(seed) => plan_text_from(text, seed, &mut ws, out),
        None => plan_text(text, &mut ws, out),
    }
}

// Whether the plan of a text is the stored answer.
fn planned(text: &[u8], seed: Option<&[f64]>, stored: &[u8]) -> bool {
    let mut out = [0u8; 16384];
    let told = plan(text, seed, &mut out);
    &out[..told.bytes] == stored
}

// The same with a case's words as the seed: the first n of v.
fn seeded(text: &[u8], v: &[u64; 1024], n: usize, stored: &[u8]) -> bool
    requires { n ≤ 1000 }
{
    let seed: [f64; 1000] = reals(v, 0);
    planned(text, Some(&seed[..n]), stored)
}

// Whether an answer has n words and nothing more; they are read into w.
fn has_words(stored: &[u8], n: u64, w: &mut [u64; 1024]) -> bool
    requires { 1 ≤ n }
{
    let fewer = words(stored, 0, n - 1, w);
    let all = words(stored, 0, n, w);
    fewer < stored.len() && all == stored.len()
}

// Whether a sample of 14 numbers is the stored answer.
fn same_sample(stored: &[u8], x: &[f64; 14]) -> bool {
    let mut w = [0u64; 1024];
    has_words(stored, 15, &mut w) && at(&w, 0) == 0 && same_all(&w, 1, x)
}

// Whether a refusal is the stored answer: its number, its place and runs.
fn same_refusal(stored: &[u8], number: u64, x: &[f64; 14]) -> bool {
    let mut w = [0u64; 1024];
    has_words(stored, 3, &mut w) && at(&w, 0) == number && same_all(&w, 1, &x[..2])
}

// Whether one dense sample of a text's plan is the stored answer: the words are the count asked for, alpha and the index.
fn sampled(text: &[u8], v: &[u64; 1024], stored: &[u8]) -> bool {
    let mut ws = [0.0; 8000];
    let mut x = [0.0; 14];
    let requested = at(v, 0) as usize;
    let index = at(v, 2) as usize;
    match sample_text(text, &mut ws, requested, real(v, 1), index, &mut x) {
        0 => same_sample(stored, &x),
        number => same_refusal(stored, number, &x),
    }
}

// Whether what is asked of a text gives the stored answer; n words go with it.
// A slice in place of v and n would be no plainer: words are read from a whole array, past their count as 0.
pub fn holds(group: Group, text: &[u8], v: &[u64; 1024], n: usize, stored: &[u8]) -> bool
    requires { n ≤ 1000 }
{
    match group {
        Group::Planned => n == 0 && planned(text, None, stored),
        Group::Seeded => seeded(text, v, n, stored),
        Group::Sampled => n == 3 && sampled(text, v, stored),
        _ => false,
    }
}
