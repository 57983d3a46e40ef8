// Runs stored texts again: standard input holds cases (crates/replay/README.md has the form), each a text and what the program must answer, and each
// answer is compared byte for byte. Blocks of 65,536 bytes, which no case crosses, are filled up with line feeds.
#![tactic(auto)]

mod answers;
mod head;

use cases::blocks;
use cases::tally::{Group, Tally};
use std::io;

// What is added to the kind of a case whose answer is stored wrong on purpose.
const PLANTED: u64 = 16;

// The group of what is asked.
fn group(kind: u64) -> Group {
    match kind {
        1 => Group::Planned,
        2 => Group::Seeded,
        3 => Group::Sampled,
        _ => Group::Unknown,
    }
}

// The case at a place, and the tally with it. After a head that is wrong nothing of the block can be read: it counts as a case that differs.
fn run_case(s: &[u8], at: usize, t: Tally) -> Tally {
    let mut words = [0u64; 1024];
    let Some(h) = head::read(s, at, &mut words) else {
        return t.with(Group::Unknown, false, s.len());
    };
    let group = group(h.kind % PLANTED);
    let text = &s[h.text..h.answer];
    let same = answers::holds(group, text, &words, h.words, &s[h.answer..h.end]);
    if h.kind < PLANTED {
        return t.with(group, same, h.end);
    }
    t.with_planted(group != Group::Unknown && !same, h.end)
}

// The case at the tally's place, if there is one; a line feed is passed over.
fn case(s: &[u8], t: Tally) -> Tally {
    match s.get(t.at) {
        None => t,
        Some(b'\n') => t.from(t.at + 1),
        Some(_) => run_case(s, t.at, t),
    }
}

fn main(rt: HostRuntime) -> io::Result<()> {
    blocks::run(&rt, case)
}
