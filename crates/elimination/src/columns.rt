// One column of the elimination, or two at a time, in a matrix and its right side. Carried over from `solve_dense` of quatopsy-plan/src/scvx.rs (Apache-2.0), changed:
// the second pivot of two is found, and its row placed, before the other rows are changed for both.
ghost use Rattle.std.specs.Prelude.{◌≡◌, ◌+◌, ◌<◌, length};
ghost use Rattle.normal_equations.specs.Rows.{row, rows};
ghost use Rattle.elimination.specs.Inner as Inner;
ghost use Rattle.elimination.specs.Elimination as Elimination;

use super::pivots::{column_after, column_at, pivot};
use super::rows::{elim_row, eliminate, eliminate_two, place_rows};

// The right side less its number k times the numbers of a column, but for number k itself.
fn take_right(b: &mut [f64], col: &[f64], k: usize)
    requires { (k < length b.old) × (length col.now ≡ length b.old) }
    ensures { b.new ≡ Inner.right_less (length b.old) k col.now b.old }
{
    let y = b[k];
    for i in 0..b.len() {
        b[i] -= col[i] * y;
    }
    b[k] = y;
}

// Numbers k and p of the right side change places, and number k is divided by d.
fn scale_right(b: &mut [f64], k: usize, p: usize, d: f64)
    requires { (k < length b.old) × (p < length b.old) }
    ensures { b.new
        ≡ Elimination.divide_right (length b.old) k d (Elimination.swap_right (length b.old) k p b.old) }
{
    let y = b[p] / d;
    b[p] = b[k];
    b[k] = y;
}

// Rows k and p change places and row k is divided, in a and in the right side; elimination in column k is done in the right side. col is column k before.
fn place(
    a: &mut [f64],
    b: &mut [f64],
    top: &mut [f64],
    spare: &mut [f64],
    col: &mut [f64],
    k: usize,
    p: usize,
)
    requires { (Inner.Sized (length b.old) a.old top.old spare.old)
        × (length col.old ≡ length b.old)
        × (k < length b.old)
        × (p < length b.old) }
    ensures { Inner.PlacedBoth (length b.old) k p a.old a.new top.new col.old b.old
        b.new }
{
    let d = place_rows(a, top, spare, k, p);
    scale_right(b, k, p, d);
    col[p] = col[k];
    take_right(b, col, k);
}

// Column k but for the elimination in a, which top, its row k, is left for; false where the pivot is too small.
fn begin(
    a: &mut [f64],
    b: &mut [f64],
    top: &mut [f64],
    spare: &mut [f64],
    col: &mut [f64],
    k: usize,
) -> bool
    requires { (Inner.Sized (length b.old) a.old top.old spare.old) × (length col.old ≡ length b.old) × (k < length b.old) }
    ensures { Inner.Begun (length b.old) k a.old b.old result a.new top.new b.new }
{
    column_at(col, a, k);
    let best = pivot(col, k);
    if best.size < 1.0e-18 {
        return false;
    }
    place(a, b, top, spare, col, k, best.at);
    true
}

// Column k; false where the pivot is too small.
pub fn column(
    a: &mut [f64],
    b: &mut [f64],
    top: &mut [f64],
    spare: &mut [f64],
    col: &mut [f64],
    k: usize,
) -> bool
    requires { (Inner.Sized (length b.old) a.old top.old spare.old) × (length col.old ≡ length b.old) × (k < length b.old) }
    ensures { Elimination.column (length b.old) k
        (Elimination.going (rows (length b.old) (length b.old) a.old) b.old)
        ≡ Elimination.after result (rows (length b.old) (length b.old) a.new) b.new }
{
    if !begin(a, b, top, spare, col, k) {
        return false;
    }
    eliminate(a, top, k);
    true
}

// Elimination in column k, which is still to be done in a, and column k + 1; false where its pivot is too small. top is row k.
fn finish(
    a: &mut [f64],
    b: &mut [f64],
    top: &[f64],
    next: &mut [f64],
    spare: &mut [f64],
    col: &mut [f64],
    k: usize,
) -> bool
    requires { (Inner.Sized (length b.old) a.old next.old spare.old)
        × (length col.old ≡ length b.old)
        × (k + 1 < length b.old)
        × (length top.now ≡ length b.old)
        × (top.now ≡ row (length b.old) a.old k) }
    ensures { Elimination.column (length b.old) (k + 1)
        (Elimination.going (Elimination.eliminate (length b.old) k (rows (length b.old) (length b.old) a.old)) b.old)
        ≡ Elimination.after result (rows (length b.old) (length b.old) a.new) b.new }
{
    let l = k + 1;
    column_after(col, a, top, k);
    let next_best = pivot(col, l);
    if next_best.size < 1.0e-18 {
        return false;
    }
    elim_row(a, top, k, next_best.at);
    place(a, b, next, spare, col, l, next_best.at);
    eliminate_two(a, top, next, k);
    true
}

// Columns k and k + 1; false where a pivot is too small.
pub fn columns(
    a: &mut [f64],
    b: &mut [f64],
    top: &mut [f64],
    next: &mut [f64],
    spare: &mut [f64],
    col: &mut [f64],
    k: usize,
) -> bool
    requires { (Inner.Sized (length b.old) a.old top.old spare.old)
        × (length next.old ≡ length b.old)
        × (length col.old ≡ length b.old)
        × (k + 1 < length b.old) }
    ensures { Elimination.column (length b.old) (k + 1)
        (Elimination.column (length b.old) k (Elimination.going (rows (length b.old) (length b.old) a.old) b.old))
        ≡ Elimination.after result (rows (length b.old) (length b.old) a.new) b.new }
{
    if !begin(a, b, top, spare, col, k) {
        return false;
    }
    finish(a, b, top, next, spare, col, k)
}
