// An order for the tiles: every order that starts at tile 0 is tried by ascending tile number, a part that costs no less than the best order is dropped, and
// a budget counts the tiles placed. What is found is in specs/Search.antt and specs/Answers.antt, and what that is worth in specs/Promises.antt.
#![tactic(auto)]

ghost use Rattle.std.specs.Prelude.{◌≡◌, ◌≤◌};
ghost use Rattle.tile_order.specs.Answers as Answers;
ghost use Rattle.tile_order.specs.Orders as Orders;

use common::Refusal;

pub mod search;
pub mod table;

use search::Search;
use table::{Table, refused};

// What is found: the order in the first places, 0 in those past the tiles; its cost; how many tiles were placed; whether one more was wanted than the budget
// has; the floor, which no order goes below.
#[derive(Clone, Copy)]
pub struct Found {
    pub order: [usize; 10],
    pub cost: u64,
    pub placed: u64,
    pub exhausted: bool,
    pub floor: u64,
}

// The answer; beside a refusal everything found is 0.
#[derive(Clone, Copy)]
pub struct Ordered {
    pub fate: Result<(), Refusal>,
    pub found: Found,
}

// The order 0, 1, 2 and so on.
fn straight(n: usize) -> [usize; 10]
    requires { n ≤ 10 }
    ensures { result ≡ Orders.straight n }
{
    let mut order = [0; 10];
    for i in 0..n {
        order[i] = i;
    }
    order
}

fn refusal() -> Ordered
    ensures { result ≡ Answers.refusal }
{
    let found = Found {
        order: [0; 10],
        cost: 0,
        placed: 0,
        exhausted: false,
        floor: 0,
    };
    Ordered {
        fate: Err(Refusal {
            number: 25,
            place: 0,
        }),
        found,
    }
}

// An order of the tiles by a table of the times from each to each, row after row, in at most `budget` placements.
pub fn order(tiles: usize, times: &[u32], budget: u64) -> Ordered
    ensures { result ≡ Answers.answer tiles times.now budget }
{
    if refused(tiles, times) {
        return refusal();
    }
    let table = Table { n: tiles, times };
    let best = straight(tiles);
    let path = [0; 10];
    let after = [1, 1, 2, 3, 4, 5, 6, 7, 8, 9, 10];
    let bound = table.cost_of(&best);
    let mut search = Search {
        table,
        budget,
        path,
        after,
        best,
        bound,
        placed: 0,
    };
    let floor = table.floor();
    let exhausted = search.visit(tiles - 1, 0, 0);
    let best = search.best;
    let found = Found {
        order: best,
        cost: search.bound,
        placed: search.placed,
        exhausted,
        floor,
    };
    Ordered {
        fate: Ok(()),
        found,
    }
}
