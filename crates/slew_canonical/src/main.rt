// Writes the canonical text of the problem's text that stands on standard input: it goes to standard output; of a text that is refused with 21 or 1 nothing does, and a sentence
// goes to standard error.
#![tactic(auto)]

use canonical::canonical_text;
use common::Refusal;
use program_io::read_full;
use refusal_text::explain;
use std::io;
use std::io::Print;

// What a refusal means, in a sentence.
fn say(rt: &HostRuntime, number: usize, place: usize) -> io::Result<()> {
    let mut sentence = [0u8; 256];
    let n = explain(number, place, 0, false, &mut sentence);
    rt.stderr().write_all(&sentence[..n])
}

// A text longer than 4,096 bytes is refused, so one byte more is all that is looked at.
fn main(rt: HostRuntime) -> io::Result<()> {
    let mut text = [0u8; 4097];
    let length = read_full(&rt, &mut text)?;
    let mut out = [0u8; 4096];
    let told = canonical_text(&text[..length], &mut out);
    let bytes = told.bytes;
    rt.stdout().write_all(&out[..bytes])?;
    let fate = told.fate;
    if let Err(Refusal { number, place }) = fate {
        return say(&rt, number, place);
    }
    Ok(())
}
