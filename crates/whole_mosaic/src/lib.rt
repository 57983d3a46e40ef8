// The whole mosaic into lent lists, a row for each answered leg, over a mosaic's turns.
#![tactic(auto)]

ghost use Rattle.std.specs.Prelude.{◌≡◌, length};
ghost use Rattle.mosaic.specs.Mosaics as Mosaics;
ghost use Rattle.mosaic.specs.Ways as Ways;
ghost use Rattle.whole_mosaic.specs.Filled as Filled;
ghost use Rattle.whole_mosaic.specs.Layout as Layout;

use common::{Decision, Refusal, SOLVER_NODES};
use geom::Quat;
use mosaic::ways::Way;
use mosaic::{Cursor, check_count, halted, next, start};
use planner::Planned;
use problem::{Momenta, Problem};
use samples::rows::rows;

// An attitude of four numbers, scalar first.
pub fn quat_of(v: [f64; 4]) -> Quat
    ensures { result ≡ Mosaics.quat_of v }
{
    Quat {
        w: v[0],
        x: v[1],
        y: v[2],
        z: v[3],
    }
}

// A leg's forward runs, controls in a row, wheels and iterations.
fn counts_of(leg: Planned) -> [usize; 4]
    ensures { result ≡ Layout.counts leg }
{
    [
        leg.runs,
        leg.path.controls,
        leg.path.wheels,
        leg.path.iterations,
    ]
}

// A leg's duration and largest defect.
fn times_of(leg: Planned) -> [f64; 2]
    ensures { result ≡ Layout.times leg }
{
    [leg.path.duration, leg.path.max_defect]
}

// The legs over the tiles 0 to `legs`, up to the first that is refused.
fn put_legs(
    p: Problem,
    way: Way,
    m: Momenta,
    tiles: &[[f64; 4]],
    legs: usize,
    counts: &mut [[usize; 4]],
    times: &mut [[f64; 2]],
    decisions: &mut [Decision],
    nodes: &mut [[[f64; 22]; SOLVER_NODES]],
    ws: &mut [f64],
) -> Cursor
    requires { Filled.Lends legs (length tiles.now) (length counts.old) (length times.old) (length decisions.old) (length nodes.old) }
    ensures { Filled.Filled (Mosaics.flown (Ways.planner_by way (length ws.old)) p (Mosaics.tile_of tiles.now) m legs) way p
        (Mosaics.tile_of tiles.now) m result counts.old counts.new times.old times.new
        decisions.old decisions.new nodes.old nodes.new ws.old ws.new }
{
    let mut c = start(m);
    for k in 0..legs {
        let made = next(p, way, c, quat_of(tiles[k]), quat_of(tiles[k + 1]), ws);
        let leg = made.planned;
        c = made.cursor;
        if let Err(_) = leg.fate {
            return c;
        }
        let path = leg.path;
        let decision = path.z;
        let count = counts_of(leg);
        let time = times_of(leg);
        let node = rows(path.nodes);
        counts[k] = count;
        times[k] = time;
        decisions[k] = decision;
        nodes[k] = node;
    }
    c
}

// 99 where a lent list has fewer rows than there are legs.
fn check_rows(
    legs: usize,
    counts: usize,
    times: usize,
    decisions: usize,
    nodes: usize,
) -> Result<(), Refusal>
    ensures { result ≡ Layout.room_fate legs counts times decisions nodes }
{
    if counts < legs {
        return Err(Refusal {
            number: 99,
            place: 0,
        });
    }
    if times < legs {
        return Err(Refusal {
            number: 99,
            place: 0,
        });
    }
    if decisions < legs {
        return Err(Refusal {
            number: 99,
            place: 0,
        });
    }
    if nodes < legs {
        return Err(Refusal {
            number: 99,
            place: 0,
        });
    }
    Ok(())
}

// 23, then 99.
fn check_tiles(
    tiles: usize,
    counts: usize,
    times: usize,
    decisions: usize,
    nodes: usize,
) -> Result<(), Refusal>
    ensures { result ≡ Layout.lent_fate tiles counts times decisions nodes }
{
    check_count(tiles)?;
    check_rows(tiles - 1, counts, times, decisions, nodes)
}

// The whole mosaic of 2 to 64 tiles from the momenta m, by a way: 23, then 99 where too few rows are lent, then the legs. A refused leg ends it, and the rows of the legs
// before it stand. What stands behind the answered legs' rows stays as it was.
pub fn plan_mosaic(
    p: Problem,
    way: Way,
    m: Momenta,
    tiles: &[[f64; 4]],
    counts: &mut [[usize; 4]],
    times: &mut [[f64; 2]],
    decisions: &mut [Decision],
    nodes: &mut [[[f64; 22]; SOLVER_NODES]],
    ws: &mut [f64],
) -> Cursor
    ensures { Filled.Filled
        (Layout.lent (Ways.planner_by way (length ws.old)) p tiles.now m (length counts.old) (length times.old) (length decisions.old) (length nodes.old))
        way p (Mosaics.tile_of tiles.now) m result counts.old counts.new times.old times.new
        decisions.old decisions.new nodes.old nodes.new ws.old ws.new }
{
    let fate = check_tiles(
        tiles.len(),
        counts.len(),
        times.len(),
        decisions.len(),
        nodes.len(),
    );
    match fate {
        Err(why) => halted(start(m), why, 0),
        Ok(()) => put_legs(
            p,
            way,
            m,
            tiles,
            tiles.len() - 1,
            counts,
            times,
            decisions,
            nodes,
            ws,
        ),
    }
}
