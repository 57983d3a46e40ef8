// tile_order: an order for the tiles of a mosaic. Answers 0, or 25; beside a refusal the order and what is told are zeros.
ghost use Rattle.std.specs.Prelude.{◌≡◌};
ghost use Rattle.tile_order.specs.Answers as Answers;
ghost use Rattle.export_leaves.specs.Outcomes.{fate_number};
ghost use Rattle.export_tools.specs.OrderEntries as OrderEntries;

use export_leaves::pack::number_of;

// `order` gets the order, 0 in the places past the tiles; `told` its cost, the tiles placed, 1 where the budget was used up and 0 where not, the floor.
pub fn slew_order(
    tiles: usize,
    times: &[u32],
    budget: u64,
    order: &mut [usize; 10],
    told: &mut [u64; 4],
) -> usize
    ensures value { result ≡ fate_number (Answers.answer tiles times.now budget).fate }
    ensures order_after { order.new ≡ (Answers.answer tiles times.now budget).found.order }
    ensures told_after { told.new ≡ OrderEntries.told (Answers.answer tiles times.now budget).found }
{
    let answer = tile_order::order(tiles, times, budget);
    let found = answer.found;
    let places = found.order;
    *order = places;
    *told = [
        found.cost,
        found.placed,
        u64::from(found.exhausted),
        found.floor,
    ];
    number_of(answer.fate)
}
