// The residual rows that are not always +0.0, gathered in the front of a residual vector. The Rust sums over all rows; a row of +0.0 adds nothing.
#![tactic(auto)]

ghost use Rattle.std.specs.Prelude.{◌≡◌, ◌+◌, ◌≤◌, length};
ghost use Rattle.common.specs.Iter.{iter};
ghost use Rattle.kept_rows.specs.Kept as Kept;
ghost use Rattle.kept_rows.specs.Kept.{Laid};
ghost use Rattle.kept_rows.specs.GatherLaws.{move_turn, Upto};

// How many of m residual rows are kept.
pub fn kept(m: usize) -> usize
    ensures { result ≡ Kept.kept m }
{
    if m == 79 { 62 } else { 11 }
}

// The n rows from `row` on go to the places from `place` on.
fn move_rows(r: &mut [f64], row: usize, place: usize, n: usize)
    requires { (place ≤ row) × (row + n ≤ length r.old) }
    ensures { r.new ≡ iter (move_turn row place) r.old n }
{
    for i in 0..n {
        r[place + i] = r[row + i];
    }
}

// The three pointing rows of each node go before the next node's.
fn gather_nodes(r: &mut [f64])
    requires { 79 ≤ length r.old }
    ensures { Upto 79 74 r.old r.new }
{
    for k in 0..17 {
        move_rows(r, 7 + 4 * k, 6 + 3 * k, 3);
    }
}

// The kept rows of m residuals, 28 or 79, go to the front of r. What stands behind them is free.
pub fn gather(m: usize, r: &mut [f64])
    requires { Laid m × (m ≤ length r.old) }
    ensures { Kept.Gathered m r.old r.new }
{
    if m == 79 {
        gather_nodes(r);
        move_rows(r, 74, 57, 5);
    } else {
        move_rows(r, 23, 6, 5);
    }
}
