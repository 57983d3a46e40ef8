// Program `slew_eigenaxis`: plans the problem whose text stands on standard input about one axis. The answer goes to standard output and, where it is refused,
// a sentence to standard error. The word `gentle` as its argument asks for the gentle shape. A program of this language has no exit status: another argument
// shows by its sentence, and by nothing on standard output.
ghost use Rattle.programs.specs.Programs.{AnswersBy, slew_eigenaxis};

use super::output::show;
use super::plans::Answered;
use super::words::asks;
use eigenaxis_seed::Shape;
use eigenaxis_text::plan_eigenaxis_text;
use program_io::{arg_count, read_full};
use refusal_text::explain_plan;
use std::io;
use std::io::Print;

// The answer to a text: its eigenaxis plan in 8,000 numbers, printed, and the sentence of a refusal.
// One function for this and `plans::answer` would be no plainer: it would take the planning as a closure, with a clause as long as either.
pub fn answer(text: &[u8], shape: Shape, out: &mut [u8], said: &mut [u8]) -> Answered
    ensures { AnswersBy (slew_eigenaxis text.now shape) out.old said.old result out.new said.new }
{
    let mut ws = [0.0; 8000];
    let told = plan_eigenaxis_text(text, shape, &mut ws, out);
    Answered {
        bytes: told.bytes,
        said: explain_plan(told.fate, told.runs, said),
    }
}

// A text longer than 4,096 bytes is refused, so one byte more is all that is looked at.
fn print_plan(rt: &HostRuntime, shape: Shape) -> io::Result<()> {
    let mut text = [0u8; 4097];
    let length = read_full(rt, &mut text)?;
    let mut out = [0u8; 16384];
    let mut said = [0u8; 256];
    let answered = answer(&text[..length], shape, &mut out, &mut said);
    show(rt, &out[..answered.bytes], &said[..answered.said])
}

pub fn run(rt: &HostRuntime) -> io::Result<()> {
    let given = arg_count(rt);
    if given < 2 {
        return print_plan(rt, Shape::Fastest);
    }
    if given == 2 && asks(rt, 1, b"gentle") {
        return print_plan(rt, Shape::Gentle);
    }
    rt.stderr().write_all(
        b"slew_eigenaxis takes no argument, or the word gentle for the gentle shape.\n",
    )
}
