// The pivot of a column: the row with the largest number, the first of equals.
ghost use Rattle.std.specs.Prelude.{◌≡◌, ◌+◌, ◌*◌, ◌<◌, cond, length};
ghost use Rattle.std.specs.Float.Ieee.{lt};
ghost use Rattle.normal_equations.specs.Rows.{row, rows};
ghost use Rattle.elimination.specs.Inner as Inner;
ghost use Rattle.elimination.specs.Elimination as Elimination;
ghost use Rattle.float.specs.Ops as Ops;

// A row, and the size of its number in the pivot's column.
#[derive(Clone, Copy)]
pub struct Best {
    pub at: usize,
    pub size: f64,
}

// A number of the same size as x that is not below 0: signs come at random, and this is decided without a branch.
fn positive(x: f64) -> f64
    ensures { Ops.abs result ≡ Ops.abs x }
{
    if x < 0.0 {
        return -x;
    }
    x
}

// The row that is ahead after row i with the number x in the pivot's column.
fn larger(best: Best, i: usize, x: f64) -> Best
    ensures { (result.at ≡ cond (lt best.size (Ops.abs x)) i best.at) × (result.size ≡ cond (lt best.size (Ops.abs x)) (Ops.abs x) best.size) }
{
    let mag = float::abs(positive(x));
    if mag > best.size {
        return Best { at: i, size: mag };
    }
    best
}

// The row with the largest number from row k on, the first of equals, col being column k of any rows.
pub fn pivot(col: &[f64], k: usize) -> Best
    requires { k < length col.now }
    ensures { Inner.PivotOf (length col.now) k col.now result.at result.size }
{
    let mut best = Best {
        at: k,
        size: float::abs(col[k]),
    };
    for i in k + 1..col.len() {
        best = larger(best, i, col[i]);
    }
    best
}

// Column k of the rows in a.
pub fn column_at(col: &mut [f64], a: &[f64], k: usize)
    requires { (k < length col.old) × (length a.now ≡ length col.old * length col.old) }
    ensures { Inner.Column (length col.old) k (rows (length col.old) (length col.old) a.now)
        col.new }
{
    let n = col.len();
    for i in 0..n {
        col[i] = a[i * n + k];
    }
}

// Column k + 1 as elimination in column k will leave it, top being row k: the rows in a are still to be changed.
pub fn column_after(col: &mut [f64], a: &[f64], top: &[f64], k: usize)
    requires { (k + 1 < length col.old)
        × (length top.now ≡ length col.old)
        × (length a.now ≡ length col.old * length col.old)
        × (top.now ≡ row (length col.old) a.now k) }
    ensures { Inner.Column (length col.old) (k + 1)
        (Elimination.eliminate (length col.old) k (rows (length col.old) (length col.old) a.now))
        col.new }
{
    let n = col.len();
    let l = k + 1;
    let y = top[l];
    for i in 0..n {
        let s = i * n;
        col[i] = a[s + l] - a[s + k] * y;
    }
    col[k] = y;
}
