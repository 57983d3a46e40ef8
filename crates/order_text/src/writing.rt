// Writes what was found: the order, its cost, the tiles placed, whether the budget was used up, the floor, one form a line.
ghost use Rattle.std.specs.Prelude.{◌≡◌, ◌*◌, ◌≤◌, ◌<◌, ◌^◌, length};
ghost use Rattle.text_writer.specs.Puts.{Puts};
ghost use Rattle.order_text.specs.OrderTexts as OrderTexts;

use text_writer::forms::put_counted;
use text_writer::put::{put_all, put_byte, put_digits};
use tile_order::Found;

// A blank and a tile's number.
fn put_tile(b: &mut [u8], at: usize, x: usize) -> usize
    requires { at < 2 ^ 30 }
    ensures { Puts b.old at (OrderTexts.tile x) 21 b.new result }
{
    let i = put_byte(b, at, b' ');
    put_digits(b, i, 20, x)
}

// The first n tiles of an order.
fn put_tiles(b: &mut [u8], at: usize, order: &[usize; 10], n: usize) -> usize
    requires { (at < 2 ^ 20) × (n ≤ 10) }
    ensures { Puts b.old at (OrderTexts.tiles order.now n) (21 * n) b.new result }
{
    let mut i = at;
    for k in 0..n {
        i = put_tile(b, i, order[k]);
    }
    i
}

fn put_used_up(b: &mut [u8], at: usize, exhausted: bool) -> usize
    requires { at < 2 ^ 30 }
    ensures { Puts b.old at (OrderTexts.used_up exhausted) 15 b.new result }
{
    if exhausted {
        return put_all(b, at, b"\n (used-up yes)");
    }
    put_all(b, at, b"\n (used-up no)")
}

fn put_order(out: &mut [u8], n: usize, order: &[usize; 10]) -> usize
    requires { n ≤ 10 }
    ensures { Puts out.old 0 (OrderTexts.order_form order.now n) 226 out.new result }
{
    let i = put_all(out, 0, b"(ordered\n (order");
    put_tiles(out, i, order, n)
}

// What was found for n tiles; nothing for more than 10, for which nothing is found.
pub fn write_ordered(out: &mut [u8], n: usize, f: Found) -> usize
    ensures { Puts out.old 0 (OrderTexts.ordered n f) 400 out.new result }
{
    if n > 10 {
        return 0;
    }
    let order = f.order;
    let i = put_order(out, n, &order);
    let j = put_counted(out, i, b")\n (cost ", f.cost as usize);
    let k = put_counted(out, j, b"\n (placed ", f.placed as usize);
    let l = put_used_up(out, k, f.exhausted);
    let m = put_counted(out, l, b"\n (floor ", f.floor as usize);
    put_all(out, m, b")\n")
}
