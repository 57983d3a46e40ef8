// What stands around the legs of a mosaic: a heading before each, and the sums after them.
ghost use Rattle.std.specs.Prelude.{◌≡◌, ◌+◌};
ghost use Rattle.text_writer.specs.Puts.{Puts};
ghost use Rattle.mosaic_text.specs.TileLines as TileLines;
ghost use Rattle.mosaic_answer.specs.LegLines as LegLines;

use geom::Quat;
use text_writer::forms::{put_counted, put_duration};
use text_writer::put::put_all;

// The line before leg number k, from 0.
pub fn write_heading(out: &mut [u8], k: usize) -> usize
    ensures { Puts out.old 0 (LegLines.heading k) 27 out.new result }
{
    let i = put_counted(out, 0, b"(leg ", k);
    put_all(out, i, b"\n")
}

// The sums of the answered legs: how many they are, their durations, their runs.
pub fn write_total(out: &mut [u8], legs: usize, duration: f64, runs: usize) -> usize
    ensures { Puts out.old 0 (LegLines.total legs duration runs) 95 out.new result }
{
    let i = put_all(out, 0, b"(total");
    let j = put_counted(out, i, b"\n (legs ", legs);
    let k = put_duration(out, j, duration);
    let l = put_counted(out, k, b"\n (runs ", runs);
    put_all(out, l, b")\n")
}

// Tile number k; past the sixty-fourth one of NaNs.
pub fn tile_at(tiles: [Quat; 64], k: usize) -> Quat
    ensures { result ≡ TileLines.tile_at tiles k }
{
    if k < 64 {
        return tiles[k];
    }
    let none = 0.0 / 0.0;
    Quat {
        w: none,
        x: none,
        y: none,
        z: none,
    }
}

// The tile after number k.
pub fn tile_after(tiles: [Quat; 64], k: usize) -> Quat
    ensures { result ≡ TileLines.tile_at tiles (k + 1) }
{
    if k < 64 {
        return tile_at(tiles, k + 1);
    }
    tile_at(tiles, 64)
}
