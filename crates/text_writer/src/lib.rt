// What the program prints: a found path, a refusal, a dense sample. What a refusal means in words is crate refusal_text's.
#![tactic(auto)]

ghost use Rattle.std.specs.Prelude.{◌≡◌, ◌≤◌, ◌<◌};
ghost use Rattle.text_writer.specs.Puts.{Puts};
ghost use Rattle.text_writer.specs.Texts as Texts;

use common::{Decision, SOLVER_NODES};
use forward::Node;
use geom::Quat;

pub mod forms;
pub mod put;

use forms::{put_counted, put_duration, put_nodes, put_rows, state_of};
use put::{put_all, put_words};

// A refusal.
pub fn write_refused(out: &mut [u8], number: usize, place: usize, runs: usize) -> usize
    ensures { Puts out.old 0 (Texts.refused number place runs) 100 out.new result }
{
    let i = put_all(out, 0, b"(refused");
    let j = put_counted(out, i, b"\n (number ", number);
    let k = put_counted(out, j, b"\n (place ", place);
    let l = put_counted(out, k, b"\n (runs ", runs);
    put_all(out, l, b")\n")
}

// What stands before the rows: how the path was found, and its duration.
fn put_heading(out: &mut [u8], runs: usize, iterations: usize, duration: f64) -> usize
    ensures { Puts out.old 0 (Texts.heading runs iterations duration) 98 out.new result }
{
    let i = put_all(out, 0, b"(path");
    let j = put_counted(out, i, b"\n (runs ", runs);
    let k = put_counted(out, j, b"\n (iterations ", iterations);
    put_duration(out, k, duration)
}

// A path of decision z with so many controls a row and so many wheels; nothing where a row is wider than 12 or there are more than 8 wheels.
pub fn write_path(
    out: &mut [u8],
    runs: usize,
    iterations: usize,
    controls: usize,
    wheels: usize,
    z: Decision,
    nodes: [Node; SOLVER_NODES],
) -> usize
    ensures { Puts out.old 0 (Texts.path runs iterations controls wheels z nodes) 9970 out.new result }
{
    if controls > 12 {
        return 0;
    }
    if wheels > 8 {
        return 0;
    }
    let i = put_heading(out, runs, iterations, z[0]);
    let j = put_rows(out, i, &z, controls);
    let k = put_nodes(out, j, nodes, wheels);
    put_all(out, k, b")\n")
}

// A dense sample, on a line of its own.
pub fn write_sample(
    out: &mut [u8],
    t: f64,
    q: Quat,
    w: [f64; 3],
    tau: [f64; 3],
    h: [f64; 3],
) -> usize
    ensures { Puts out.old 0 (Texts.sample t q w tau h) 248 out.new result }
{
    let i = put_all(out, 0, b" (sample");
    let state = state_of(t, q, w, tau, h);
    let j = put_words(out, i, &state, 0, 14);
    put_all(out, j, b")\n")
}
