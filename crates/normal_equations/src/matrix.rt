// Rows of the Gram matrix: half of it is summed, the rest mirrored.
ghost use Rattle.std.specs.Prelude.{◌≡◌, ◌+◌, ◌*◌, ◌<◌, length, take};
ghost use Rattle.common.specs.Lists.{at};
ghost use Rattle.normal_equations.specs.FilledInner.{Filled};
ghost use Rattle.normal_equations.specs.Inner as Inner;

use super::rows::put_row;
use super::sums::{sum_row, sums};

// Row c up to the diagonal: column c of the rows above.
fn mirror(a: &[f64], c: usize, row: &mut [f64])
    requires { (c < length row.old) × (length a.now ≡ length row.old * length row.old) }
    ensures { Filled (λ d. at a.now (d * length row.old + c)) 0 c (at row.old) (at row.new) }
{
    let n = row.len();
    for d in 0..c {
        row[d] = a[d * n + c];
    }
}

// Row c of the matrix is filled in, the rows above it being filled in: v holds the columns of the Jacobian, then the matrix; row holds the sums from the diagonal on.
fn put_sums(v: &mut [f64], m: usize, c: usize, row: &mut [f64])
    requires { (c < length row.old)
        × (length v.old ≡ length row.old * m + length row.old * length row.old)
        × (Inner.Summed m (take (length row.old * m) v.old) c c (length row.old) row.old) }
    ensures { Inner.RowFilled (length row.old) m v.old c v.new }
{
    let o = row.len() * m;
    mirror(&v[o..], c, row);
    put_row(&mut v[o..], c, row);
}

// Row c alone; row is scratch.
pub fn matrix_row(v: &mut [f64], m: usize, c: usize, row: &mut [f64])
    requires { (c < length row.old) × (length v.old ≡ length row.old * m + length row.old * length row.old) }
    ensures { Inner.RowFilled (length row.old) m v.old c v.new }
{
    let o = row.len() * m;
    sum_row(&v[..o], m, c, row);
    put_sums(v, m, c, row);
}

// Rows c and c + 1; row and next are scratch.
pub fn matrix_rows(v: &mut [f64], m: usize, c: usize, row: &mut [f64], next: &mut [f64])
    requires { (c + 1 < length row.old)
        × (length next.old ≡ length row.old)
        × (length v.old ≡ length row.old * m + length row.old * length row.old) }
    ensures { Inner.RowsFilled (length row.old) m v.old c v.new }
{
    let o = row.len() * m;
    sums(&v[..o], m, c, row, next);
    put_sums(v, m, c, row);
    put_sums(v, m, c + 1, next);
}
