// The C interface of a whole mosaic, thin over the proved libraries. export_mosaic_c gives the functions their C symbols and makes
// the archive.
//
// The problem is declared as for a plan; its attitudes are not read. A cursor is five counts (legs answered, their runs; a refusal's number, else 0, its place
// and its runs) and nine numbers (the answered legs' duration, and the momenta of eight wheels that the next leg starts with). The way to plan is a number:
// 0 the search, 1 about one axis, 2 about one axis gently.
#![tactic(auto)]

ghost use Rattle.std.specs.Prelude.{◌≡◌, length};
ghost use Rattle.planner.specs.Plans as Plans;
ghost use Rattle.problem_numbers.specs.Declared as Declared;
ghost use Rattle.export_mosaic.specs.Cursors as Cursors;

use common::Refusal;
use eigenaxis_seed::Shape;
use export::plans::put_planned;
use export_leaves::pack::{number_of, place_of};
use geom::Quat;
use mosaic::ways::Way;
use mosaic::{Advanced, Cursor, halted, next, start};
use planner::refused;
use problem::{Momenta, Problem};
use problem_numbers::problem_of;
use whole_mosaic::{plan_mosaic, quat_of};

fn asked_of(way: usize) -> Option<Way>
    ensures { result ≡ Cursors.asked way }
{
    if way == 0 {
        return Some(Way::Search);
    }
    if way == 1 {
        return Some(Way::Eigenaxis(Shape::Fastest));
    }
    if way == 2 {
        return Some(Way::Eigenaxis(Shape::Gentle));
    }
    None
}

// How a cursor goes on: a refusal's number and place, or number 0.
fn fate_of(number: usize, place: usize) -> Result<(), Refusal>
    ensures { result ≡ Cursors.fate number place }
{
    if number == 0 {
        return Ok(());
    }
    Err(Refusal { number, place })
}

// The cursor of its counts and numbers, for so many wheels.
fn cursor_of(wheels: usize, n: [usize; 5], s: [f64; 9]) -> Cursor
    ensures { result ≡ Cursors.cursor wheels n s }
{
    let at = [s[1], s[2], s[3], s[4], s[5], s[6], s[7], s[8]];
    let momenta = Momenta {
        count: wheels,
        at: at,
    };
    let fate = fate_of(n[2], n[3]);
    Cursor {
        index: n[0],
        momenta: momenta,
        duration: s[0],
        runs: n[1],
        fate: fate,
        refused_runs: n[4],
    }
}

// A cursor's counts and numbers, put into what is lent for them; a refusal's number, or 0.
fn put_cursor(c: Cursor, counts: &mut [usize; 5], sums: &mut [f64; 9]) -> usize
    ensures { Cursors.CursorTold c result counts.new sums.new }
{
    let fate = c.fate;
    let momenta = c.momenta;
    let m = momenta.at;
    let number = number_of(fate);
    let place = place_of(fate);
    *counts = [c.index, c.runs, number, place, c.refused_runs];
    *sums = [c.duration, m[0], m[1], m[2], m[3], m[4], m[5], m[6], m[7]];
    number
}

// One leg; or 99 where no way is asked for: nothing is planned, and the cursor stays.
fn turn(p: Problem, way: usize, c: Cursor, from: Quat, to: Quat, ws: &mut [f64]) -> Advanced
    ensures value { result ≡ Cursors.turn_by_value (Cursors.asked way) p c from to (length ws.old) }
    ensures ws_after { ws.new ≡ Plans.leaves result.planned.runs ws.old }
{
    let asked = asked_of(way);
    match asked {
        Some(by) => next(p, by, c, from, to, ws),
        None => Advanced {
            cursor: c,
            planned: refused(
                Refusal {
                    number: 99,
                    place: 0,
                },
                0,
            ),
        },
    }
}

// The whole mosaic from the momenta of the problem; or 99 where no way is asked for.
fn fill(
    p: Problem,
    way: usize,
    tiles: &[[f64; 4]],
    counts: &mut [[usize; 4]],
    times: &mut [[f64; 2]],
    decisions: &mut [[f64; 193]],
    nodes: &mut [[[f64; 22]; 17]],
    ws: &mut [f64],
) -> Cursor
    ensures { Cursors.Fills
        (Cursors.whole way p tiles.now counts.old times.old decisions.old nodes.old ws.old)
        result counts.old counts.new times.old times.new decisions.old decisions.new
        nodes.old nodes.new ws.old ws.new }
{
    let m = p.momenta;
    let asked = asked_of(way);
    match asked {
        Some(by) => plan_mosaic(p, by, m, tiles, counts, times, decisions, nodes, ws),
        None => halted(
            start(m),
            Refusal {
                number: 99,
                place: 0,
            },
            0,
        ),
    }
}

// One leg, from one attitude to another: the cursor moves on, and the leg's answer is put into what is lent for it, as `slew_plan_numbers` does; the leg's
// refusal, or 0. After a refusal the cursor stays, and that refusal's number is answered again, with 0 runs.
pub fn slew_mosaic_next(
    c: &[usize; 11],
    v: &[f64; 100],
    b: &[f64; 37],
    limited: bool,
    way: usize,
    from: &[f64; 4],
    to: &[f64; 4],
    cursor: &mut [usize; 5],
    sums: &mut [f64; 9],
    ws: &mut [f64],
    counts: &mut [usize; 5],
    duration: &mut f64,
    max_defect: &mut f64,
    z: &mut [f64; 193],
    nodes: &mut [[f64; 22]; 17],
    held: &mut [usize; 12],
) -> usize
    ensures { Cursors.TurnTold
        (Cursors.turn way c.now v.now b.now limited from.now to.now
        cursor.old sums.old (length ws.old))
        cursor.new sums.new ws.old ws.new result
        counts.new duration.new max_defect.new z.new nodes.new held.new }
{
    let p = problem_of(c, v, b, limited);
    let at = cursor_of(c[0], *cursor, *sums);
    let made = turn(p, way, at, quat_of(*from), quat_of(*to), ws);
    let moved = made.cursor;
    let leg = made.planned;
    put_cursor(moved, cursor, sums);
    put_planned(leg, counts, duration, max_defect, z, nodes, held)
}

// The whole mosaic from the momenta of the problem: a refusal's number, or 0; the cursor after it; and in each lent list a row for each answered leg.
pub fn slew_mosaic(
    c: &[usize; 11],
    v: &[f64; 100],
    b: &[f64; 37],
    limited: bool,
    way: usize,
    tiles: &[[f64; 4]],
    counts: &mut [[usize; 4]],
    times: &mut [[f64; 2]],
    decisions: &mut [[f64; 193]],
    nodes: &mut [[[f64; 22]; 17]],
    ws: &mut [f64],
    cursor: &mut [usize; 5],
    sums: &mut [f64; 9],
) -> usize
    ensures { Cursors.WholeTold
        (Cursors.whole way (Declared.problem c.now v.now b.now limited) tiles.now
        counts.old times.old decisions.old nodes.old ws.old)
        result cursor.new sums.new
        counts.old counts.new times.old times.new decisions.old decisions.new
        nodes.old nodes.new ws.old ws.new }
{
    let p = problem_of(c, v, b, limited);
    let made = fill(p, way, tiles, counts, times, decisions, nodes, ws);
    put_cursor(made, cursor, sums)
}
