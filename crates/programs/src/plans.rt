// Program `slew`: plans the problem whose text stands on standard input. The answer goes to standard output and, where it is refused, a sentence to standard
// error.
ghost use Rattle.programs.specs.Programs as Programs;
ghost use Rattle.programs.specs.Programs.{Answers};

use crate::output::show;
use plan_text::plan_text;
use program_io::read_full;
use refusal_text::explain_plan;
use std::io;

// How many bytes are for standard output, and how many for standard error.
// Lengths and no slices: what may not change, `AnswersBy`, tells of the whole buffers that were lent.
#[derive(Clone, Copy)]
pub struct Answered {
    pub bytes: usize,
    pub said: usize,
}

// The answer to a text: its plan in 8,000 numbers, printed, and the sentence of a refusal.
pub fn answer(text: &[u8], out: &mut [u8], said: &mut [u8]) -> Answered
    ensures { Answers text.now out.old said.old result out.new said.new }
{
    let mut ws = [0.0; 8000];
    let told = plan_text(text, &mut ws, out);
    Answered {
        bytes: told.bytes,
        said: explain_plan(told.fate, told.runs, said),
    }
}

// A text longer than 4,096 bytes is refused, so one byte more is all that is looked at.
pub fn run(rt: &HostRuntime) -> io::Result<()> {
    let mut text = [0u8; 4097];
    let length = read_full(rt, &mut text)?;
    let mut out = [0u8; 16384];
    let mut said = [0u8; 256];
    let answered = answer(&text[..length], &mut out, &mut said);
    show(rt, &out[..answered.bytes], &said[..answered.said])
}
