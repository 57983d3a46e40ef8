// What is printed of a mosaic's text: a heading and a path for each leg as program `slew` prints one, or the leg's refusal in the path's place; then the sums
// of the legs that stand. It is written leg by leg into lent buffers.
#![tactic(auto)]

ghost use Rattle.std.specs.Prelude.{◌≡◌, length};
ghost use Rattle.mosaic.specs.Ways as Ways;
ghost use Rattle.mosaic_answer.specs.MosaicAnswers as MosaicAnswers;
ghost use Rattle.mosaic_answer.specs.MosaicAnswers.{Writes};

use common::Refusal;
use mosaic::ways::Way;
use mosaic::{Cursor, check_count, next};
use mosaic_text::{ReadMosaic, read_mosaic};
use plan_text::tell;
use refusal_text::explain_plan;

pub mod lines;

use lines::{tile_after, tile_at, write_heading};

// A leg that was written: the cursor after it, and how many bytes its heading, its path or refusal, and its sentence have.
#[derive(Clone, Copy)]
pub struct Leg {
    pub cursor: Cursor,
    pub heading: usize,
    pub bytes: usize,
    pub said: usize,
}

// A mosaic with another fate.
fn with_fate(m: ReadMosaic, fate: Result<(), Refusal>) -> ReadMosaic
    ensures { result ≡ MosaicAnswers.with_fate m fate }
{
    let problem = m.problem;
    let tiles = m.tiles;
    ReadMosaic {
        fate: fate,
        problem: problem,
        count: m.count,
        tiles: tiles,
    }
}

// The mosaic of a text: 21 first, then 23.
pub fn read_counted(text: &[u8]) -> ReadMosaic
    ensures { result ≡ MosaicAnswers.counted text.now }
{
    let m = read_mosaic(text);
    let fate = m.fate;
    match fate {
        Err(_) => m,
        Ok(()) => with_fate(m, check_count(m.count)),
    }
}

// Plans the next leg by a way, and writes it.
pub fn write_leg(
    m: ReadMosaic,
    way: Way,
    c: Cursor,
    ws: &mut [f64],
    heading: &mut [u8],
    out: &mut [u8],
    said: &mut [u8],
) -> Leg
    ensures { Writes (Ways.planner_by way (length ws.old)) m c
        ws.old heading.old out.old said.old
        result ws.new heading.new out.new said.new }
{
    let k = c.index;
    let tiles = m.tiles;
    let from = tile_at(tiles, k);
    let to = tile_after(tiles, k);
    let p = m.problem;
    let advanced = next(p, way, c, from, to, ws);
    let headed = write_heading(heading, k);
    let planned = advanced.planned;
    let told = tell(planned, out);
    let fate = told.fate;
    let sentence = explain_plan(fate, told.runs, said);
    let cursor = advanced.cursor;
    Leg {
        cursor: cursor,
        heading: headed,
        bytes: told.bytes,
        said: sentence,
    }
}
