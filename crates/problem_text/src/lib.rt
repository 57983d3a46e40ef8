// The program's text: nested brackets, one form a line, read into the problem that the planner takes.
#![tactic(auto)]

ghost use Rattle.std.specs.Prelude.{◌≡◌, ◌≤◌};
ghost use Rattle.text.specs.Forms.{loose};
ghost use Rattle.text.specs.Lines as Lines;
ghost use Rattle.problem_text.specs.Reader as Reader;

use actuators::{Actuators, no_actuators};
use common::Refusal;
use geom::Quat;
use problem::{Momenta, Problem, Weights};

pub mod listing;

use listing::Listing;
use text::lines::{Row, Words, line_at, no_floats};
use text::places::put;

// What was found in a text so far: how the reading goes, the position after it, the rows of the first nine lines, the actuators. Beside a refusal there is
// nothing.
#[derive(Clone, Copy)]
pub struct Found {
    pub fate: Result<(), Refusal>,
    pub at: usize,
    pub rows: [Row; 9],
    pub actuators: Actuators,
}

// What a text gives: the problem, or refusal 21 with the line and a blank problem.
#[derive(Clone, Copy)]
pub struct Read {
    pub fate: Result<(), Refusal>,
    pub problem: Problem,
}

// Nothing is found yet at a position, or a line is wrong.
fn nothing(fate: Result<(), Refusal>, at: usize) -> Found
    ensures { result ≡ Reader.nothing fate at }
{
    Found {
        fate,
        at,
        rows: [no_floats(0); 9],
        actuators: no_actuators(),
    }
}

// One line more: its row, or refusal 21 where it is wrong.
#[tactic(auto, unfolding(crate::specs::Reader::with_row))]
fn with_row(c: Found, line: usize, row: Option<Row>) -> Found
    requires { 1 ≤ line }
    ensures { result ≡ Reader.with_row c line row }
{
    let Some(row) = row else {
        return nothing(
            Err(Refusal {
                number: 21,
                place: line,
            }),
            0,
        );
    };
    Found {
        fate: Ok(()),
        at: row.at,
        rows: put(c.rows, line - 1, row),
        actuators: c.actuators,
    }
}

// The line of a form after what was found, unless a line before it is wrong.
#[tactic(auto, unfolding(crate::specs::Reader::next_line))]
fn next_line(s: &[u8], c: Found, line: usize, head: &[u8], words: Words, tail: &[u8]) -> Found
    requires { 1 ≤ line }
    ensures { result ≡ Reader.next_line loose s.now line c (Lines.form head.now words tail.now) }
{
    let fate = c.fate;
    match fate {
        Err(_) => c,
        Ok(()) => with_row(c, line, line_at(s, c.at, head, words, tail)),
    }
}

// The first nine lines from a position on.
fn lines_at(s: &[u8], at: usize) -> Found
    ensures { result ≡ Reader.lines_at loose s.now at }
{
    let c = nothing(Ok(()), at);
    let c = next_line(s, c, 1, b"(problem", Words::Floats(0), b"\n");
    let c = next_line(s, c, 2, b" (q0", Words::Floats(4), b")\n");
    let c = next_line(s, c, 3, b" (qf", Words::Floats(4), b")\n");
    let c = next_line(s, c, 4, b" (inertia", Words::Floats(9), b")\n");
    let c = next_line(s, c, 5, b" (limit", Words::Floats(3), b")\n");
    let c = next_line(s, c, 6, b" (slew", Words::Limited(0), b")\n");
    let c = next_line(s, c, 7, b" (weights", Words::Floats(6), b")\n");
    let c = next_line(s, c, 8, b" (tolerance", Words::Floats(2), b")\n");
    next_line(s, c, 9, b" (momenta", Words::Any, b")\n")
}

// The same, but a text of more than 4,096 bytes is refused at line 0.
pub fn head_at(s: &[u8], at: usize) -> Found
    ensures { result ≡ Reader.head_at_value loose s.now at }
{
    if s.len() > 4096 {
        return nothing(
            Err(Refusal {
                number: 21,
                place: 0,
            }),
            0,
        );
    }
    lines_at(s, at)
}

// Where the first nine lines end.
pub fn head_end(s: &[u8], at: usize) -> usize
    ensures { result ≡ (Reader.head_at_value loose s.now at).at }
{
    let c = head_at(s, at);
    c.at
}

// What was found with the list of actuators, which must be closed.
fn with_list(c: Found, list: Listing) -> Found
    ensures { result ≡ Reader.with_list c list }
{
    if list.unclosed {
        return nothing(
            Err(Refusal {
                number: 21,
                place: list.line,
            }),
            0,
        );
    }
    let fate = list.fate;
    match fate {
        Err(refusal) => nothing(
            Err(Refusal {
                number: 21,
                place: refusal.place,
            }),
            0,
        ),
        Ok(()) => {
            let rows = c.rows;
            let actuators = list.actuators;
            Found {
                fate: Ok(()),
                at: list.at,
                rows: rows,
                actuators: actuators,
            }
        }
    }
}

// The same, unless a line before the list is wrong.
fn next_list(c: Found, list: Listing) -> Found
    ensures { result ≡ Reader.next_list c list }
{
    let fate = c.fate;
    match fate {
        Err(_) => c,
        Ok(()) => with_list(c, list),
    }
}

// The momenta's count, judged after every line: one a wheel, or line 9 is wrong.
fn judge_count(c: Found) -> Found
    ensures { result ≡ Reader.judge_count c }
{
    let fate = c.fate;
    match fate {
        Err(_) => c,
        Ok(()) => {
            let rows = c.rows;
            let row = rows[8];
            let actuators = c.actuators;
            if row.count == actuators.wheel_count {
                c
            } else {
                nothing(
                    Err(Refusal {
                        number: 21,
                        place: 9,
                    }),
                    0,
                )
            }
        }
    }
}

// Four floats as an attitude, scalar first.
fn quat_of(row: Row) -> Quat
    ensures { result ≡ Reader.quat_of row }
{
    let v = row.v;
    Quat {
        w: v[0],
        x: v[1],
        y: v[2],
        z: v[3],
    }
}

// Six floats as weights.
fn weights_of(row: Row) -> Weights
    ensures { result ≡ Reader.weights_of row }
{
    let v = row.v;
    Weights {
        time: v[0],
        control: v[1],
        energy: v[2],
        pointing: v[3],
        smoothness: v[4],
        momentum: v[5],
    }
}

// Any number of floats as momenta: all are counted, the first eight are kept.
fn momenta_of(row: Row) -> Momenta
    ensures { result ≡ Reader.momenta_of row }
{
    let v = row.v;
    Momenta {
        count: row.count,
        at: [v[0], v[1], v[2], v[3], v[4], v[5], v[6], v[7]],
    }
}

// The problem of the first nine lines and the actuators.
fn problem_of(rows: [Row; 9], actuators: Actuators) -> Problem
    ensures { result ≡ Reader.problem_of rows actuators }
{
    let q0 = rows[1];
    let qf = rows[2];
    let inertia_row = rows[3];
    let inertia = inertia_row.v;
    let limit_row = rows[4];
    let limit = limit_row.v;
    let slew_row = rows[5];
    let slew = slew_row.limit;
    let weights = rows[6];
    let tolerance_row = rows[7];
    let tolerance = tolerance_row.v;
    let momenta = rows[8];
    Problem {
        q0: quat_of(q0),
        qf: quat_of(qf),
        inertia: inertia,
        torque_limit: [limit[0], limit[1], limit[2]],
        slew: slew,
        weights: weights_of(weights),
        norm_tolerance: tolerance[0],
        tie_tolerance: tolerance[1],
        actuators: actuators,
        momenta: momenta_of(momenta),
    }
}

// The problem of what was found and of the list behind it; beside a refusal zeros and no actuators.
pub fn read_of(head: Found, list: Listing) -> Read
    ensures { result ≡ Reader.read_of head list }
{
    let c = judge_count(next_list(head, list));
    let fate = c.fate;
    let rows = c.rows;
    let actuators = c.actuators;
    Read {
        fate: fate,
        problem: problem_of(rows, actuators),
    }
}
