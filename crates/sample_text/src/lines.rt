// What is printed of a text's dense samples, one step a sample: its line, or a refusal and what it means.
ghost use Rattle.std.specs.Prelude.{◌≡◌, ◌^◌, ◌<◌, ◌≤◌, length, if◌then◌else◌};
ghost use Rattle.text_writer.specs.Puts.{Puts};
ghost use Rattle.sample_text.specs.SampleLines as SampleLines;
ghost use Rattle.sample_text.specs.SampleLines.{Refuses, StepsAt};

use super::{Course, numbers_of, sample_course};
use common::Refusal;
use refusal_text::explain;
use samples::{PathSample, sample_count};
use text_writer::put::{put_all, put_words};
use text_writer::write_refused;

// A step: the bytes for standard output, those for standard error, and whether another step follows.
#[derive(Clone, Copy)]
pub struct Line {
    pub bytes: usize,
    pub said: usize,
    pub more: bool,
}

// Whether a sample is the path's last.
#[tactic(auto, unfolding(crate::specs::SampleLines::is_last))]
pub fn is_last(duration: f64, requested: usize, alpha: f64, index: usize) -> bool
    ensures { result ≡ SampleLines.is_last duration requested alpha index }
{
    let counted = sample_count(duration, requested, alpha);
    match counted {
        None => true,
        Some(count) => index < count && index + 1 == count,
    }
}

// One text or the other.
pub fn put_either(out: &mut [u8], at: usize, first: bool, a: &[u8], b: &[u8]) -> usize
    requires { (at < 2 ^ 32) × ((length a.now ≤ 17) × (length b.now ≤ 17)) }
    ensures { Puts out.old at (if first then a.now else b.now) 17 out.new result }
{
    if first {
        return put_all(out, at, a);
    }
    put_all(out, at, b)
}

// A sample's line.
fn put_sample(out: &mut [u8], index: usize, last: bool, s: PathSample) -> usize
    ensures { Puts out.old 0 (SampleLines.sample_line index last s) 272 out.new result }
{
    let i = put_either(out, 0, index == 0, b"(samples\n (sample", b" (sample");
    let v = numbers_of(s);
    let j = put_words(out, i, &v, 0, 14);
    put_either(out, j, last, b"))\n", b")\n")
}

// Whether a text's plan is a path, so that a refusal is a sample's.
pub fn is_planned(c: Course) -> bool
    ensures { result ≡ SampleLines.is_planned c.fate }
{
    let fate = c.fate;
    match fate {
        Err(_) => false,
        Ok(()) => true,
    }
}

// A refusal, after which no step follows.
pub fn tell_refused(
    sampled: bool,
    number: usize,
    place: usize,
    runs: usize,
    out: &mut [u8],
    said: &mut [u8],
) -> Line
    ensures { Refuses sampled number place runs out.old said.old result out.new said.new }
{
    let bytes = write_refused(out, number, place, runs);
    let told = explain(number, place, runs, sampled, said);
    Line {
        bytes: bytes,
        said: told,
        more: false,
    }
}

// The step of sample number index of a text's plan.
pub fn write_step(
    c: Course,
    requested: usize,
    alpha: f64,
    index: usize,
    out: &mut [u8],
    said: &mut [u8],
) -> Line
    ensures { StepsAt c requested alpha index out.old said.old result out.new said.new }
{
    let sampled = is_planned(c);
    let d = sample_course(c, requested, alpha, index);
    match d.sampled {
        Err(why) => tell_refused(sampled, why.number, why.place, d.runs, out, said),
        Ok(s) => {
            let last = is_last(c.duration, requested, alpha, index);
            let bytes = put_sample(out, index, last, s);
            Line {
                bytes,
                said: 0,
                more: !last,
            }
        }
    }
}
