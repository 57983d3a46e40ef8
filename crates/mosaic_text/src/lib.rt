// A mosaic's text: the line `(mosaic`, one problem's text as it stands in a file of its own, a line for each tile, and the line `)`. Read into the problem and
// its tiles.
#![tactic(auto)]

ghost use Rattle.std.specs.Prelude.{◌≡◌, ◌≤◌, length};
ghost use Rattle.mosaic_text.specs.MosaicTexts as MosaicTexts;
ghost use Rattle.mosaic_text.specs.MosaicTexts.{EndIs};

use common::Refusal;
use geom::Quat;
use problem::Problem;
use problem_text::Read;
use text::lines::is_at;

pub mod tiles;

use tiles::{Tiles, WrongLine, no_tile, tiles_at};

// What a mosaic's text gives: the problem, how many tiles there are, and the first 64 of them; or refusal 21 with the line, a blank problem and no tiles.
#[derive(Clone, Copy)]
pub struct ReadMosaic {
    pub fate: Result<(), Refusal>,
    pub problem: Problem,
    pub count: usize,
    pub tiles: [Quat; 64],
}

// A line is wrong: beside the refusal stands what the problem's reader gives for no text at all.
fn wrong(line: usize) -> ReadMosaic
    ensures { result ≡ MosaicTexts.wrong line }
{
    let none = text_reader::read(b"");
    ReadMosaic {
        fate: Err(Refusal {
            number: 21,
            place: line,
        }),
        problem: none.problem,
        count: 0,
        tiles: [no_tile(); 64],
    }
}

// Where the problem's text ends: behind the first line that closes two brackets, or before the first tile where no line does.
fn problem_end(s: &[u8]) -> usize
    requires { (8 ≤ length s.now) × (length s.now ≤ 16384) }
    ensures { EndIs s.now result }
{
    for i in 8..s.len() {
        if is_at(s, i, b"))\n") {
            return i + 3;
        }
        if is_at(s, i, b"\n (tile") {
            return i + 1;
        }
    }
    s.len()
}

// A line's number in the whole text, from its number in the problem's: the mosaic has one line before it. A text that is too long has line 0.
#[tactic(auto, unfolding(crate::specs::MosaicTexts::placed))]
fn placed(line: usize) -> usize
    ensures { result ≡ MosaicTexts.placed line }
{
    if line == 0 {
        return 0;
    }
    if line > 16384 {
        return 16385;
    }
    line + 1
}

// The number of the line that begins at a position: one more than there are line feeds before it.
fn line_of(s: &[u8], at: usize) -> usize
    requires { length s.now ≤ 16384 }
    ensures { result ≡ MosaicTexts.line_of s.now at }
{
    let mut line: usize = 1;
    for (k, b) in s.iter().enumerate() {
        if k < at && *b == b'\n' {
            line += 1;
        }
    }
    line
}

// Whether two attitudes are equal, number by number.
#[tactic(auto, using(crate::specs::MosaicTextLaws::last_decides), unfolding(crate::specs::MosaicTexts::same_attitude))]
fn same_attitude(a: Quat, b: Quat) -> bool
    ensures { result ≡ MosaicTexts.same_attitude a b }
{
    a.w == b.w && a.x == b.x && a.y == b.y && a.z == b.z
}

// The problem's own attitudes are those of the first tile and of the last. Another count of tiles than 2 to 64 is not judged here: it is refused as such.
#[tactic(auto, unfolding(crate::specs::MosaicTexts::judge_ends))]
fn judge_ends(q0: Quat, qf: Quat, count: usize, tiles: [Quat; 64]) -> Result<(), Refusal>
    ensures { result ≡ MosaicTexts.judge_ends q0 qf count tiles }
{
    if count < 2 || count > 64 {
        return Ok(());
    }
    if !same_attitude(q0, tiles[0]) {
        return Err(Refusal {
            number: 21,
            place: 3,
        });
    }
    if !same_attitude(qf, tiles[count - 1]) {
        return Err(Refusal {
            number: 21,
            place: 4,
        });
    }
    Ok(())
}

// The mosaic of a problem and the tiles behind it.
#[tactic(auto, unfolding(crate::specs::MosaicTexts::with_tiles))]
fn with_tiles(s: &[u8], p: Problem, t: Result<Tiles, WrongLine>) -> ReadMosaic
    requires { length s.now ≤ 16384 }
    ensures { result ≡ MosaicTexts.with_tiles s.now p t }
{
    let Tiles { count, tiles } = match t {
        Ok(t) => t,
        Err(first) => return wrong(line_of(s, first.at)),
    };
    match judge_ends(p.q0, p.qf, count, tiles) {
        Err(refusal) => wrong(refusal.place),
        Ok(()) => ReadMosaic {
            fate: Ok(()),
            problem: p,
            count,
            tiles,
        },
    }
}

// The same, unless the problem's text is wrong.
#[tactic(auto, unfolding(crate::specs::MosaicTexts::mosaic_of))]
fn mosaic_of(s: &[u8], read: Read, t: Result<Tiles, WrongLine>) -> ReadMosaic
    requires { length s.now ≤ 16384 }
    ensures { result ≡ MosaicTexts.mosaic_of s.now read t }
{
    match read.fate {
        Err(refusal) => wrong(placed(refusal.place)),
        Ok(()) => with_tiles(s, read.problem, t),
    }
}

// What follows the first line: the problem's text, and the tiles behind it.
#[tactic(auto, unfolding(crate::specs::MosaicTexts::read_parts))]
fn read_parts(s: &[u8]) -> ReadMosaic
    requires { (8 ≤ length s.now) × (length s.now ≤ 16384) }
    ensures { result ≡ MosaicTexts.read_parts s.now }
{
    let end = problem_end(s);
    let read = text_reader::read(&s[8..end]);
    let t = tiles_at(s, end);
    mosaic_of(s, read, t)
}

// The mosaic of a whole text; one of more than 16,384 bytes is refused at line 0.
#[tactic(auto, unfolding(crate::specs::MosaicTexts::read_mosaic))]
pub fn read_mosaic(s: &[u8]) -> ReadMosaic
    ensures { result ≡ MosaicTexts.read_mosaic s.now }
{
    if s.len() > 16384 {
        return wrong(0);
    }
    if !is_at(s, 0, b"(mosaic\n") {
        return wrong(1);
    }
    read_parts(s)
}
