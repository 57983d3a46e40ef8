// What the program slew_order prints: a table's text is read, an order found, and the answer put into bytes that the caller lends.
#![tactic(auto)]

ghost use Rattle.std.specs.Prelude.{◌≡◌, ◌*◌, ◌≤◌, take};
ghost use Rattle.order_text.specs.OrderTexts as OrderTexts;
ghost use Rattle.order_text.specs.OrderTexts.{Prints, Tells};
ghost use Rattle.tile_order.specs.Answers as Answers;

use common::Refusal;
use text_writer::write_refused;
use tile_order::{Found, Ordered, order};

pub mod reading;
pub mod writing;

use reading::{ReadTiles, read_tiles};
use writing::write_ordered;

// How a text was answered, and how many bytes were written.
#[derive(Clone, Copy)]
pub struct Told {
    pub fate: Result<(), Refusal>,
    pub bytes: usize,
}

// The order for up to 10 tiles.
fn order_few(n: usize, times: [u32; 100], budget: u64) -> Ordered
    requires { n ≤ 10 }
    ensures { result ≡ Answers.answer n (take (n * n) times) budget }
{
    let count = n * n;
    order(n, &times[..count], budget)
}

// The order for the tiles of a text that was read; of more than 10 no time is looked at.
fn order_read(r: ReadTiles) -> Ordered
    ensures { result ≡ Answers.answer r.tiles (OrderTexts.cells r) r.budget }
{
    let times = r.times;
    let n = r.tiles;
    if n > 10 {
        return order(n, &times[..0], r.budget);
    }
    order_few(n, times, r.budget)
}

fn refused(number: usize, line: usize) -> Ordered
    ensures { result ≡ OrderTexts.unread number line }
{
    let found = Found {
        order: [0; 10],
        cost: 0,
        placed: 0,
        exhausted: false,
        floor: 0,
    };
    Ordered {
        fate: Err(Refusal {
            number,
            place: line,
        }),
        found: found,
    }
}

fn answer(r: ReadTiles) -> Ordered
    ensures { result ≡ OrderTexts.answer r }
{
    let fate = r.fate;
    match fate {
        Err(refusal) => refused(refusal.number, refusal.place),
        Ok(()) => order_read(r),
    }
}

fn tell(n: usize, a: Ordered, out: &mut [u8]) -> Told
    ensures { Prints n a out.old result out.new }
{
    let fate = a.fate;
    match fate {
        Err(refusal) => {
            let bytes = write_refused(out, refusal.number, refusal.place, 0);
            Told {
                fate: Err(refusal),
                bytes: bytes,
            }
        }
        Ok(()) => {
            let found = a.found;
            let bytes = write_ordered(out, n, found);
            Told {
                fate: Ok(()),
                bytes: bytes,
            }
        }
    }
}

// The order for a table's text: what `slew_order` prints. A buffer of less than 512 bytes gets nothing.
pub fn order_text(text: &[u8], out: &mut [u8]) -> Told
    ensures { Tells text.now out.old result out.new }
{
    if out.len() < 512 {
        return Told {
            fate: Err(Refusal {
                number: 99,
                place: 0,
            }),
            bytes: 0,
        };
    }
    let read = read_tiles(text);
    let a = answer(read);
    tell(read.tiles, a, out)
}
