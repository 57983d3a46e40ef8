// What is printed of a text's samples as the drive board takes them, one step a sample: its 13 whole numbers, or a refusal and what it means.
#![tactic(auto)]

ghost use Rattle.std.specs.Prelude.{◌≡◌, ◌<◌, ◌^◌};
ghost use Rattle.text_writer.specs.Puts.{Puts};
ghost use Rattle.board_text.specs.BoardLines as BoardLines;
ghost use Rattle.board_text.specs.BoardLines.{StepsAt};

use common::Refusal;
use drive_numbers::drive;
use sample_text::lines::{Line, is_last, is_planned, put_either, tell_refused};
use sample_text::{Course, sample_course};
use text_writer::put::{put_byte, put_less};

// A sample of a text's plan as the drive board takes it, or the refusal of either, and the runs of a refused plan.
#[derive(Clone, Copy)]
pub struct Board {
    pub runs: usize,
    pub driven: Result<[i32; 13], Refusal>,
}

// Sample number index of a text's plan.
pub fn board_course(c: Course, requested: usize, alpha: f64, index: usize) -> Board
    ensures { result ≡ BoardLines.board_course c requested alpha index }
{
    let d = sample_course(c, requested, alpha, index);
    Board {
        runs: d.runs,
        driven: drive(d.sampled, index),
    }
}

// A blank and a number.
fn put_number(b: &mut [u8], at: usize, n: i32) -> usize
    requires { at < 2 ^ 28 }
    ensures { Puts b.old at (BoardLines.number n) 22 b.new result }
{
    let i = put_byte(b, at, b' ');
    put_less(b, i, (n as i64 + 2147483648) as usize, 2147483648)
}

// A row's 13 numbers.
fn put_row(b: &mut [u8], at: usize, v: &[i32; 13]) -> usize
    requires { at < 2 ^ 27 }
    ensures { Puts b.old at (BoardLines.row v.now) 286 b.new result }
{
    let mut i = at;
    for n in v {
        i = put_number(b, i, *n);
    }
    i
}

// A sample's line.
fn put_line(out: &mut [u8], index: usize, last: bool, v: [i32; 13]) -> usize
    ensures { Puts out.old 0 (BoardLines.board_line index last v) 320 out.new result }
{
    let i = put_either(out, 0, index == 0, b"(board\n (sample", b" (sample");
    let j = put_row(out, i, &v);
    put_either(out, j, last, b"))\n", b")\n")
}

// The step of sample number index of a text's plan.
pub fn write_numbers(
    c: Course,
    requested: usize,
    alpha: f64,
    index: usize,
    out: &mut [u8],
    said: &mut [u8],
) -> Line
    ensures { StepsAt c requested alpha index out.old said.old result out.new said.new }
{
    let sampled = is_planned(c);
    let b = board_course(c, requested, alpha, index);
    match b.driven {
        Err(why) => tell_refused(sampled, why.number, why.place, b.runs, out, said),
        Ok(v) => {
            let last = is_last(c.duration, requested, alpha, index);
            let bytes = put_line(out, index, last, v);
            Line {
                bytes,
                said: 0,
                more: !last,
            }
        }
    }
}
