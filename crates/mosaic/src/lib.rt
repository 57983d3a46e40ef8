// A whole mosaic: 2 to 64 attitudes, a leg from each to the next, every leg a slew from rest to rest whose wheels start with the momenta that the leg before it
// ended with, planned by the search or about one axis as the caller says. A cursor by value plans one leg a turn.
#![tactic(auto)]

ghost use Rattle.std.specs.Prelude.{◌≡◌, ◌≤◌, length};
ghost use Rattle.mosaic.specs.Mosaics as Mosaics;
ghost use Rattle.mosaic.specs.Turns as Turns;
ghost use Rattle.mosaic.specs.Ways as Ways;

use common::Refusal;
use geom::Quat;
use planner::{Planned, refused};
use problem::{Momenta, Problem};
use wheel_momenta::{last_momenta, with_momenta};

pub mod ways;

use ways::{Way, plan_by};

// How a mosaic stands: the legs answered so far, which is also the index of the leg that comes next or that was refused; the momenta that the next leg starts
// with; the durations and the runs of the answered legs, summed in order; how it goes on; and the runs of the refused leg, 0 while none is.
#[derive(Clone, Copy)]
pub struct Cursor {
    pub index: usize,
    pub momenta: Momenta,
    pub duration: f64,
    pub runs: usize,
    pub fate: Result<(), Refusal>,
    pub refused_runs: usize,
}

// What a turn gives: the cursor after it, and the planner's answer for the leg.
#[derive(Clone, Copy)]
pub struct Advanced {
    pub cursor: Cursor,
    pub planned: Planned,
}

// The mosaic's problem for one leg: its attitudes, and the momenta that its wheels start with. The problem's own attitudes and momenta are not read.
pub fn leg_problem(p: Problem, from: Quat, to: Quat, m: Momenta) -> Problem
    ensures { result ≡ Mosaics.leg_problem p from to m }
{
    let mut q = p;
    q.q0 = from;
    q.qf = to;
    with_momenta(q, m)
}

// 23: fewer than 2 attitudes, or more than 64.
pub fn check_count(tiles: usize) -> Result<(), Refusal>
    ensures { result ≡ Mosaics.count_fate tiles }
{
    if tiles < 2 {
        return Err(Refusal {
            number: 23,
            place: 0,
        });
    }
    if tiles > 64 {
        return Err(Refusal {
            number: 23,
            place: 0,
        });
    }
    Ok(())
}

// The cursor before the first leg, whose wheels start with the momenta m.
pub fn start(m: Momenta) -> Cursor
    ensures { result ≡ Mosaics.start m }
{
    Cursor {
        index: 0,
        momenta: m,
        duration: 0.0,
        runs: 0,
        fate: Ok(()),
        refused_runs: 0,
    }
}

// A leg was refused: the legs before it stand, and the sums are theirs.
pub fn halted(c: Cursor, why: Refusal, runs: usize) -> Cursor
    ensures { result ≡ Mosaics.halted c why runs }
{
    Cursor {
        fate: Err(why),
        refused_runs: runs,
        ..c
    }
}

// A leg was answered: it is added to the sums, and the next one starts with its last momenta.
fn took(c: Cursor, leg: Planned) -> Cursor
    requires { (Turns.Open c) × (leg.runs ≤ Mosaics.most_runs) }
    ensures { result ≡ Mosaics.took c leg }
{
    let path = leg.path;
    Cursor {
        index: c.index + 1,
        momenta: last_momenta(path),
        duration: c.duration + path.duration,
        runs: c.runs + leg.runs,
        fate: Ok(()),
        refused_runs: 0,
    }
}

// The cursor after the planner's answer for the next leg.
fn moved(c: Cursor, leg: Planned) -> Cursor
    requires { (Turns.Open c) × (leg.runs ≤ Mosaics.most_runs) }
    ensures { result ≡ Mosaics.moved c leg }
{
    match leg.fate {
        Err(why) => halted(c, why, leg.runs),
        Ok(()) => took(c, leg),
    }
}

// The plan of the next leg of a mosaic that goes on, and the cursor after it.
fn advance(p: Problem, way: Way, c: Cursor, from: Quat, to: Quat, ws: &mut [f64]) -> Advanced
    requires { Turns.Open c }
    ensures { Turns.Turned (Ways.planner_by way (length ws.old) (Mosaics.leg_problem p from to c.momenta)) way p c from to
        ws.old result ws.new }
{
    let m = c.momenta;
    let planned = plan_by(leg_problem(p, from, to, m), way, ws);
    Advanced {
        cursor: moved(c, planned),
        planned: planned,
    }
}

// Whether a cursor that goes on has no further leg.
fn is_full(c: Cursor) -> bool
    ensures { result ≡ Mosaics.is_full c }
{
    if c.index > 62 {
        return true;
    }
    c.runs > 15_000_000
}

// The next leg of a mosaic that goes on, where it has one.
fn advance_open(p: Problem, way: Way, c: Cursor, from: Quat, to: Quat, ws: &mut [f64]) -> Advanced
    ensures { Turns.Turned (Mosaics.opened (Ways.planner_by way (length ws.old)) p c from to) way p c from to ws.old result
        ws.new }
{
    if is_full(c) {
        let why = Refusal {
            number: 23,
            place: 0,
        };
        return Advanced {
            cursor: halted(c, why, 0),
            planned: refused(why, 0),
        };
    }
    advance(p, way, c, from, to, ws)
}

// One turn: plans the leg from one attitude to another by a way. After a refusal the cursor stays as it is, and nothing is planned.
pub fn next(p: Problem, way: Way, c: Cursor, from: Quat, to: Quat, ws: &mut [f64]) -> Advanced
    ensures { Turns.Advances way p c from to ws.old result ws.new }
{
    match c.fate {
        Err(why) => Advanced {
            cursor: c,
            planned: refused(why, 0),
        },
        Ok(()) => advance_open(p, way, c, from, to, ws),
    }
}
