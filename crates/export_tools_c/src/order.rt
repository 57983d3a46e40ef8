// An order for the tiles of a mosaic (`export_tools::order`).
ghost use Rattle.std.specs.Prelude.{◌≡◌};
ghost use Rattle.tile_order.specs.Answers as Answers;
ghost use Rattle.export_leaves.specs.Outcomes.{fate_number};
ghost use Rattle.export_tools.specs.OrderEntries as OrderEntries;

#[unsafe(no_mangle)]
pub extern "C" fn slew_order(
    tiles: usize,
    times: &[u32],
    budget: u64,
    order: &mut [usize; 10],
    told: &mut [u64; 4],
) -> usize
    ensures value { result ≡ fate_number (Answers.answer tiles times.now budget).fate }
    ensures order_after { order.new ≡ (Answers.answer tiles times.now budget).found.order }
    ensures told_after { told.new ≡ OrderEntries.told (Answers.answer tiles times.now budget).found }
{
    export_tools::order::slew_order(tiles, times, budget, order, told)
}
