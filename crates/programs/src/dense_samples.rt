// Program `slew_samples`: prints the dense samples of the problem whose text stands on standard input, one a line. The first argument is the number of samples
// asked for, 17 where there is none; a path has more where its rate asks for more. Behind it the word `board` asks for the drive board's whole numbers, then
// `eigenaxis` for a slew about one axis, then `gentle` for the gentle shape. A refusal is printed in the place of the samples that are left, with a sentence on
// standard error. A program of this language has no exit status: bad arguments show by their sentence, and by nothing on standard output.
ghost use Rattle.std.specs.Prelude.{◌≡◌, ◌≤◌};
ghost use Rattle.sample_text.specs.SampleTexts.{plan_course};
ghost use Rattle.eigenaxis_samples.specs.Courses.{eigenaxis_course};
ghost use Rattle.programs.specs.Programs as Programs;

use crate::output::show;
use crate::words::asks;
use arguments::read_requested;
use board_text::write_numbers;
use eigenaxis_samples::plan_eigenaxis_course;
use eigenaxis_seed::Shape;
use mosaic::ways::Way;
use program_io::{arg, arg_count, read_full};
use sample_text::lines::write_step;
use sample_text::{Course, plan_course};
use std::io;
use std::io::Print;

// What is asked for behind the number of samples: the drive board's numbers or not, the way that the slew is planned by, and the number of the argument behind
// these words.
#[derive(Clone, Copy)]
pub struct Wanted {
    pub board: bool,
    pub way: Way,
    pub end: usize,
}

// The search's plan of a text in 8,000 numbers, to take samples of.
fn search_course(text: &[u8]) -> Course
    ensures { result ≡ plan_course text.now 8000 }
{
    let mut ws = [0.0; 8000];
    plan_course(text, &mut ws)
}

// The plan about one axis.
fn eigenaxis_course(text: &[u8], shape: Shape) -> Course
    ensures { result ≡ eigenaxis_course text.now shape 8000 }
{
    let mut ws = [0.0; 8000];
    plan_eigenaxis_course(text, shape, &mut ws)
}

// The plan by a way.
pub fn course(text: &[u8], way: Way) -> Course
    ensures { result ≡ Programs.course_by way text.now }
{
    match way {
        Way::Search => search_course(text),
        Way::Eigenaxis(shape) => eigenaxis_course(text, shape),
    }
}

// Prints one sample, in the drive board's numbers or not, and answers whether another follows.
fn print_step(
    rt: &HostRuntime,
    board: bool,
    c: Course,
    requested: usize,
    index: usize,
) -> io::Result<bool> {
    let mut out = [0u8; 320];
    let mut said = [0u8; 212];
    let line = if board {
        write_numbers(c, requested, c.alpha, index, &mut out, &mut said)
    } else {
        write_step(c, requested, c.alpha, index, &mut out, &mut said)
    };
    show(rt, &out[..line.bytes], &said[..line.said])?;
    Ok(line.more)
}

// No path has more than 100,000 samples.
fn print_steps(rt: &HostRuntime, board: bool, c: Course, requested: usize) -> io::Result<()> {
    for index in 0..100_000 {
        if !print_step(rt, board, c, requested, index)? {
            break;
        }
    }
    Ok(())
}

// Prints the dense samples of a text's plan.
pub fn print_text(
    rt: &HostRuntime,
    text: &[u8],
    requested: usize,
    wanted: Wanted,
) -> io::Result<()> {
    print_steps(rt, wanted.board, course(text, wanted.way), requested)
}

// A text longer than 4,096 bytes is refused, so one byte more is all that is looked at.
fn print_samples(rt: &HostRuntime, requested: usize, wanted: Wanted) -> io::Result<()> {
    let mut text = [0u8; 4097];
    let length = read_full(rt, &mut text)?;
    print_text(rt, &text[..length], requested, wanted)
}

// The way that the words from argument number k on ask for.
fn way_at(rt: &HostRuntime, k: usize, board: bool) -> Wanted
    requires { k ≤ 3 }
{
    if !asks(rt, k, b"eigenaxis") {
        return Wanted {
            board,
            way: Way::Search,
            end: k,
        };
    }
    if !asks(rt, k + 1, b"gentle") {
        return Wanted {
            board,
            way: Way::Eigenaxis(Shape::Fastest),
            end: k + 1,
        };
    }
    Wanted {
        board,
        way: Way::Eigenaxis(Shape::Gentle),
        end: k + 2,
    }
}

// What the words behind the number of samples ask for.
fn read_words(rt: &HostRuntime) -> Wanted {
    if asks(rt, 2, b"board") {
        return way_at(rt, 3, true);
    }
    way_at(rt, 2, false)
}

// The number of samples asked for; none where a word stands behind those that are known.
fn asked(rt: &HostRuntime, given: usize, end: usize) -> Option<usize> {
    if given < 2 {
        return Some(17);
    }
    if end < given {
        return None;
    }
    let mut word = [0u8; 64];
    let length = arg(rt, 1, &mut word);
    read_requested(&word[..length])
}

pub fn run(rt: &HostRuntime) -> io::Result<()> {
    let w = read_words(rt);
    match asked(rt, arg_count(rt), w.end) {
        Some(requested) => print_samples(rt, requested, w),
        None => rt.stderr().write_all(
            b"slew_samples takes the number of samples in decimal digits, behind it the word board for the drive board's numbers, eigenaxis for a slew about one axis, and gentle for its gentle shape.\n",
        ),
    }
}
