// Program `slew_mosaic`: plans the mosaic whose text stands on standard input, leg by leg, and prints each leg when it is planned: a heading, then the path as
// `slew` prints one. A refused leg is printed in the path's place, with a sentence on standard error, and is the last. Then come the sums of the legs that
// stand. A text that is refused is answered as `slew` answers one. The word `eigenaxis` asks for legs about one axis, and behind it `gentle` for the gentle
// shape. A program of this language has no exit status: other arguments show by their sentence, and by nothing on standard output.
ghost use Rattle.std.specs.Prelude.{◌≡◌, ◌-◌, IfOk};
ghost use Rattle.mosaic.specs.Ways as Ways;
ghost use Rattle.mosaic_answer.specs.MosaicAnswers as MosaicAnswers;

use crate::output::show;
use crate::words::asks;
use common::Refusal;
use eigenaxis_seed::Shape;
use mosaic::ways::Way;
use mosaic::{Cursor, start};
use mosaic_answer::lines::write_total;
use mosaic_answer::{read_counted, write_leg};
use mosaic_text::ReadMosaic;
use program_io::{arg_count, read_full};
use refusal_text::explain;
use std::io;
use std::io::Print;
use text_writer::write_refused;

// A text that is refused, with 21 or 23.
fn print_refused(rt: &HostRuntime, number: usize, place: usize) -> io::Result<()> {
    let mut out = [0u8; 100];
    let mut said = [0u8; 212];
    let bytes = write_refused(&mut out, number, place, 0);
    let told = explain(number, place, 0, false, &mut said);
    show(rt, &out[..bytes], &said[..told])
}

// Plans the next leg in 8,000 numbers, and prints it.
fn print_leg(rt: &HostRuntime, m: ReadMosaic, way: Way, c: Cursor) -> io::Result<Cursor>
    ensures { IfOk result (λ after. after ≡ MosaicAnswers.after (Ways.planner_by way 8000) m c) }
{
    let mut ws = [0.0; 8000];
    let mut heading = [0u8; 27];
    let mut out = [0u8; 9970];
    let mut said = [0u8; 212];
    let leg = write_leg(m, way, c, &mut ws, &mut heading, &mut out, &mut said);
    rt.stdout().write_all(&heading[..leg.heading])?;
    show(rt, &out[..leg.bytes], &said[..leg.said])?;
    Ok(leg.cursor)
}

// The sums of the legs that stand.
fn print_total(rt: &HostRuntime, c: Cursor) -> io::Result<()> {
    let mut out = [0u8; 95];
    let bytes = write_total(&mut out, c.index, c.duration, c.runs);
    rt.stdout().write_all(&out[..bytes])
}

fn is_refused(c: Cursor) -> bool
    ensures { result ≡ MosaicAnswers.is_refused c.fate }
{
    match c.fate {
        Err(_) => true,
        Ok(()) => false,
    }
}

// The legs of a mosaic from tile to tile, and the cursor after them.
fn print_legs(rt: &HostRuntime, m: ReadMosaic, way: Way) -> io::Result<Cursor>
    ensures { IfOk result (λ c. c ≡ MosaicAnswers.cursor_at (Ways.planner_by way 8000) m (m.count - 1)) }
{
    let mut c = start(m.problem.momenta);
    for _ in 1..m.count {
        c = print_leg(rt, m, way, c)?;
        if is_refused(c) {
            return Ok(c);
        }
    }
    Ok(c)
}

// The answer to a mosaic's text, planned by a way.
pub fn print_mosaic(rt: &HostRuntime, text: &[u8], way: Way) -> io::Result<()> {
    let m = read_counted(text);
    match m.fate {
        Err(refusal) => print_refused(rt, refusal.number, refusal.place),
        Ok(()) => print_total(rt, print_legs(rt, m, way)?),
    }
}

// A text longer than 16,384 bytes is refused, so one byte more is all that is looked at.
fn print_input(rt: &HostRuntime, way: Way) -> io::Result<()> {
    let mut text = [0u8; 16385];
    let length = read_full(rt, &mut text)?;
    print_mosaic(rt, &text[..length], way)
}

pub fn run(rt: &HostRuntime) -> io::Result<()> {
    let given = arg_count(rt);
    if given < 2 {
        return print_input(rt, Way::Search);
    }
    if given == 2 && asks(rt, 1, b"eigenaxis") {
        return print_input(rt, Way::Eigenaxis(Shape::Fastest));
    }
    if given == 3 && asks(rt, 1, b"eigenaxis") && asks(rt, 2, b"gentle") {
        return print_input(rt, Way::Eigenaxis(Shape::Gentle));
    }
    rt.stderr().write_all(
        b"slew_mosaic takes no argument, or the word eigenaxis to plan each leg about one axis, and behind it gentle for the gentle shape.\n",
    )
}
