// Runs stored answers of the published Rust again: standard input holds a case a line (README.md has the form), and each is run through the C interface
// and compared to the last bit, a NaN matching any NaN. Blocks of 65,536 bytes, which no line crosses, are filled up with empty lines.
#![tactic(auto)]

mod dense_samples;
mod runs;

use cases::tally::{Group, Tally};
use cases::{blocks, read};
use std::io;

// What is added to the number of a function whose answer is stored wrong on purpose.
const PLANTED: u64 = 0x1000;

// The group of a function: fifty numbers a group, those of whole plans and systems left out.
fn group(number: u64) -> Group {
    match number {
        0..=49 => Group::Leaves,
        50..=99 => Group::Shapes,
        100..=149 => Group::Rigs,
        150..=199 => Group::Courses,
        200..=249 => Group::Runs,
        350..=399 => Group::Samples,
        _ => Group::Unknown,
    }
}

// Whether the port gives what is stored: the words that go in first, then those that come out.
// A stored function's number is matched where the function is called: an enum between would list the same arms twice, and be no plainer.
fn holds(group: Group, number: u64, v: &[u64; 1024]) -> bool {
    match group {
        Group::Leaves | Group::Shapes => leaf_cases::holds(number, v),
        Group::Rigs | Group::Courses => rig_cases::holds(number, v),
        Group::Runs => runs::holds(number, v),
        Group::Samples => dense_samples::holds(number, v),
        _ => false,
    }
}

// The line at a place, and the tally with it. A line that does not end where its words do is wrong.
fn run_line(s: &[u8], at: usize, t: Tally) -> Tally {
    let c = read::head(s, at);
    let mut words = [0u64; 1024];
    let n = read::words(s, c.next, c.count, &mut words);
    let number = c.number % PLANTED;
    let group = group(number);
    let whole = read::stands_before(s, n, b'\n');
    let same = holds(group, number, &words);
    if c.number < PLANTED {
        return t.with(group, whole && same, n);
    }
    t.with_planted(whole && group != Group::Unknown && !same, n)
}

// The line at the tally's place, if there is one; an empty line is passed over.
fn line(s: &[u8], t: Tally) -> Tally {
    match s.get(t.at) {
        None => t,
        Some(b'\n') => t.from(t.at + 1),
        Some(_) => run_line(s, t.at, t),
    }
}

fn main(rt: HostRuntime) -> io::Result<()> {
    blocks::run(&rt, line)
}
