// The tiles of a mosaic's text: a line for each, then the line that closes the mosaic, and nothing after it.
ghost use Rattle.std.specs.Prelude.{◌≡◌, ◌≤◌, ◌<◌, length};
ghost use Rattle.mosaic_text.specs.TileLines as TileLines;

use geom::Quat;
use text::lines::{Row, Words, is_at, line_at};
use text::places::put;

// The tiles found so far: how many they are, and the first 64 of them.
#[derive(Clone, Copy)]
pub struct Tiles {
    pub count: usize,
    pub tiles: [Quat; 64],
}

// The first line that is wrong: where it begins, and the tiles before it.
#[derive(Clone, Copy)]
pub struct WrongLine {
    pub at: usize,
    pub before: Tiles,
}

// How far the tiles are read: another line may follow at a position; the mosaic is closed and the text ends there; or a line is wrong.
#[derive(Clone, Copy)]
enum Reading {
    More(usize, Tiles),
    Closed(Tiles),
    Wrong(WrongLine),
}

pub fn no_tile() -> Quat
    ensures { result ≡ TileLines.no_tile }
{
    Quat {
        w: 0.0,
        x: 0.0,
        y: 0.0,
        z: 0.0,
    }
}

// One tile more, in the line's row: four floats, scalar first. Past the sixty-fourth a tile is counted only.
fn with_tile(t: Tiles, row: Row) -> Tiles
    requires { t.count < 16384 }
    ensures { result ≡ TileLines.with_tile t row }
{
    let v = row.v;
    let q = Quat {
        w: v[0],
        x: v[1],
        y: v[2],
        z: v[3],
    };
    Tiles {
        count: t.count + 1,
        tiles: put(t.tiles, t.count, q),
    }
}

// The mosaic is closed before a position: nothing may stand there.
#[tactic(auto, unfolding(crate::specs::TileLines::closed))]
fn closed(s: &[u8], t: Tiles, at: usize) -> Reading
    ensures { result ≡ TileLines.closed s.now t at }
{
    if at >= s.len() {
        Reading::Closed(t)
    } else {
        Reading::Wrong(WrongLine { at, before: t })
    }
}

// The line at a position.
#[tactic(auto, unfolding(crate::specs::TileLines::next_line))]
fn next_line(s: &[u8], at: usize, t: Tiles) -> Reading
    requires { t.count < 16384 }
    ensures { result ≡ TileLines.next_line s.now at t }
{
    if is_at(s, at, b")\n") {
        return closed(s, t, at + 2);
    }
    match line_at(s, at, b" (tile", Words::Floats(4), b")\n") {
        Some(row) => Reading::More(row.at, with_tile(t, row)),
        None => Reading::Wrong(WrongLine { at, before: t }),
    }
}

// The tiles from a position on, or the first line that is wrong, with the tiles before it. There are at most as many lines as bytes.
pub fn tiles_at(s: &[u8], at: usize) -> Result<Tiles, WrongLine>
    requires { length s.now ≤ 16384 }
    ensures { result ≡ TileLines.tiles_at s.now at }
{
    let mut at = at;
    let mut t = Tiles {
        count: 0,
        tiles: [no_tile(); 64],
    };
    for k in 0..s.len() {
        match next_line(s, at, t) {
            Reading::More(next, more) => {
                at = next;
                t = more;
            }
            Reading::Closed(t) => return Ok(t),
            Reading::Wrong(wrong) => return Err(wrong),
        }
    }
    Err(WrongLine { at, before: t })
}
