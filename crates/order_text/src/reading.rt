// Reads a table of times: `(tiles`, ` (budget N)`, and ` (from T T ..)` for each tile, decimal numbers, the last line closed by two brackets. The first row
// says how many tiles there are.
ghost use Rattle.std.specs.Prelude.{◌≡◌, ◌+◌, ◌≤◌, ◌<◌, ◌^◌, length, set, Some, None, Ok, Err, IfSome};
ghost use Rattle.order_text.specs.TileTexts as TileTexts;
ghost use Rattle.text.specs.Lines.{IsAt};

use common::Refusal;
use text::hex::{byte, hex_digit};
use text::lines::is_at;

// A decimal number so far: whether a digit may follow, the position after it, its value. There is a value either way, so an Option would be no plainer.
#[derive(Clone, Copy)]
pub struct Number {
    pub going: bool,
    pub at: usize,
    pub v: u32,
}

// A blank and a number: the position after it, its value.
#[derive(Clone, Copy)]
pub struct Word {
    pub at: usize,
    pub v: u32,
}

// How many words a line has, as far as it was looked at, and whether it goes on. There is a count either way, so an Option would be no plainer.
#[derive(Clone, Copy)]
pub struct Width {
    pub going: bool,
    pub count: usize,
}

// The times read so far, with the position after them.
#[derive(Clone, Copy)]
pub struct Row {
    pub at: usize,
    pub times: [u32; 100],
}

// What a text says: the tiles, the budget, the first hundred times row after row; or 21 with zeros beside it.
#[derive(Clone, Copy)]
pub struct ReadTiles {
    pub fate: Result<(), Refusal>,
    pub tiles: usize,
    pub budget: u64,
    pub times: [u32; 100],
}

fn digit_value(d: u8) -> u32
    ensures { result ≡ d }
{
    d as u32
}

// One more digit. Above 99,999,999 a number counts as 99,999,999: as a time it is refused all the same, and as a budget it is never used up.
fn digit_turn(s: &[u8], c: Number) -> Number
    requires { (c.at ≤ length s.now) × (c.v ≤ TileTexts.most) }
    ensures { TileTexts.NumberIs s.now (TileTexts.digit_turn s.now c) result }
{
    if !c.going {
        return c;
    }
    let at = c.at;
    let d = hex_digit(byte(s, at));
    if d >= 10 {
        return Number {
            going: false,
            at: at,
            v: c.v,
        };
    }
    let v = c.v * 10 + digit_value(d);
    if v > 99_999_999 {
        return Number {
            going: true,
            at: at + 1,
            v: 99_999_999,
        };
    }
    Number {
        going: true,
        at: at + 1,
        v: v,
    }
}

// Up to twenty digits.
fn number_at(s: &[u8], at: usize) -> Number
    requires { at ≤ length s.now }
    ensures { TileTexts.NumberIs s.now (TileTexts.number_at s.now at) result }
{
    let mut c = Number {
        going: true,
        at,
        v: 0,
    };
    for _k in 0..20usize {
        c = digit_turn(s, c);
    }
    c
}

// A blank and a number of at least one digit.
fn word_at(s: &[u8], at: usize) -> Option<Word>
    requires { at ≤ length s.now }
    ensures { TileTexts.WordIs s.now at result }
{
    if byte(s, at) != b' ' {
        return None;
    }
    let c = number_at(s, at + 1);
    if c.at == at + 1 {
        return None;
    }
    Some(Word { at: c.at, v: c.v })
}

// A time in its place; past a hundred it is not kept.
fn put_time(times: [u32; 100], place: usize, v: u32) -> [u32; 100]
    ensures { result ≡ set times place v }
{
    let mut more = times;
    if place < 100 {
        more[place] = v;
    }
    more
}

// The next word of a row, as number `place` of the times.
fn next_word(s: &[u8], place: usize, c: Row) -> Option<Row>
    requires { c.at ≤ length s.now }
    ensures { TileTexts.RowIs s.now (TileTexts.row_turn s.now place (Some c)) result }
{
    let w = word_at(s, c.at)?;
    let times = c.times;
    let more = put_time(times, place, w.v);
    Some(Row {
        at: w.at,
        times: more,
    })
}

// The n words of a row, from number `base` of the times on.
fn row_at(s: &[u8], at: usize, n: usize, base: usize, times: [u32; 100]) -> Option<Row>
    requires { (at ≤ length s.now) × (n < 2 ^ 32) × (base ≤ 2 ^ 62) }
    ensures { TileTexts.RowIs s.now (TileTexts.row_at s.now at n base times) result }
{
    let mut c = Row { at, times };
    for k in 0..n {
        c = next_word(s, base + k, c)?;
    }
    Some(c)
}

// A row's end: the last one is closed by two brackets.
fn ends_at(s: &[u8], at: usize, last: bool) -> bool
    ensures { IsAt s.now at (TileTexts.tail last) result }
{
    if last {
        return is_at(s, at, b"))\n");
    }
    is_at(s, at, b")\n")
}

fn tail_length(last: bool) -> usize
    ensures { result ≡ length (TileTexts.tail last) }
{
    if last { 3 } else { 2 }
}

// A whole row.
fn line_at(s: &[u8], at: usize, n: usize, base: usize, last: bool, times: [u32; 100]) -> Option<Row>
    requires { (n < 2 ^ 32) × (base ≤ 2 ^ 62) }
    ensures { TileTexts.RowIs s.now (TileTexts.line_at s.now at n base last times) result }
{
    if !is_at(s, at, b" (from") {
        return None;
    }
    let c = row_at(s, at + 6, n, base, times)?;
    if !ends_at(s, c.at, last) {
        return None;
    }
    let read = c.times;
    Some(Row {
        at: c.at + tail_length(last),
        times: read,
    })
}

// Row i of n, after those before it; an error is the number of its line.
fn next_line(s: &[u8], n: usize, i: usize, c: Row) -> Result<Row, usize>
    requires { (i < n) × (n < 2 ^ 31) }
    ensures { result ≡ TileTexts.table_turn s.now n i (Ok c) }
{
    let times = c.times;
    match line_at(s, c.at, n, i * n, i + 1 == n, times) {
        Some(r) => Ok(r),
        None => Err(i + 3),
    }
}

// The rows of n tiles, of which the first is line 3; an error is the first line that is wrong.
fn table_at(s: &[u8], at: usize, n: usize) -> Result<Row, usize>
    requires { n < 2 ^ 31 }
    ensures { result ≡ TileTexts.table_at s.now at n }
{
    let times = [0; 100];
    let mut c = Row { at, times };
    for i in 0..n {
        c = next_line(s, n, i, c)?;
    }
    Ok(c)
}

// One more byte of a line.
fn width_turn(s: &[u8], at: usize, c: Width) -> Width
    requires { c.count < 2 ^ 32 }
    ensures { (result ≡ TileTexts.width_turn s.now at c) × (result.count ≤ c.count + 1) }
{
    if !c.going {
        return c;
    }
    let b = byte(s, at);
    if b == b')' {
        return Width {
            going: false,
            count: c.count,
        };
    }
    if b == b' ' {
        return Width {
            going: true,
            count: c.count + 1,
        };
    }
    c
}

// The blanks from a position up to a bracket: as many words as a row has that is right.
fn width_at(s: &[u8], at: usize) -> usize
    requires { (at < 2 ^ 32) × (length s.now < 2 ^ 31) }
    ensures { (result ≡ TileTexts.width_at s.now at) × (result ≤ length s.now) }
{
    let mut c = Width {
        going: true,
        count: 0,
    };
    for k in 0..s.len() {
        c = width_turn(s, at + k, c);
    }
    c.count
}

// Line 2, with the position after it.
fn budget_at(s: &[u8]) -> Option<Word>
    ensures is { result ≡ TileTexts.budget_at s.now }
    ensures within { IfSome result (λ w. w.at ≤ length s.now) }
{
    if !is_at(s, 7, b" (budget") {
        return None;
    }
    let w = word_at(s, 15)?;
    if !is_at(s, w.at, b")\n") {
        return None;
    }
    Some(Word {
        at: w.at + 2,
        v: w.v,
    })
}

fn refused(line: usize) -> ReadTiles
    ensures { result ≡ TileTexts.refused line }
{
    ReadTiles {
        fate: Err(Refusal {
            number: 21,
            place: line,
        }),
        tiles: 0,
        budget: 0,
        times: [0; 100],
    }
}

// The rows from line 3 on, and that nothing stands after them.
fn rows_of(s: &[u8], at: usize, budget: u32) -> ReadTiles
    requires { (at ≤ length s.now) × (length s.now < 2 ^ 31) }
    ensures { result ≡ TileTexts.rows_of s.now at budget }
{
    let n = width_at(s, at + 6);
    if n == 0 {
        return refused(3);
    }
    match table_at(s, at, n) {
        Err(line) => refused(line),
        Ok(t) => {
            if t.at != s.len() {
                return refused(n + 3);
            }
            let times = t.times;
            ReadTiles {
                fate: Ok(()),
                tiles: n,
                budget: budget as u64,
                times,
            }
        }
    }
}

// What a text says.
pub fn read_tiles(s: &[u8]) -> ReadTiles
    ensures { result ≡ TileTexts.read_tiles s.now }
{
    if s.len() > 4096 {
        return refused(0);
    }
    if !is_at(s, 0, b"(tiles\n") {
        return refused(1);
    }
    match budget_at(s) {
        None => refused(2),
        Some(w) => rows_of(s, w.at, w.v),
    }
}
