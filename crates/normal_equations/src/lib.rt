// The normal equations of a Levenberg-Marquardt step. Carried over from quatopsy-plan/src/scvx.rs (Apache-2.0), changed: parts of a workspace are lent,
// the Jacobian lies by columns; half of its Gram matrix is summed, eight cells at a time, and mirrored, so that it can be kept without the damping factor.
#![tactic(auto)]

ghost use Rattle.std.specs.Prelude.{◌≡◌, ◌+◌, ◌*◌, ◌≤◌, length, replicate, take, drop};
ghost use Rattle.common.specs.Floats as Floats;
ghost use Rattle.normal_equations.specs.Rows.{rows};
ghost use Rattle.normal_equations.specs.Normal as Normal;
ghost use Rattle.normal_equations.specs.Inner.{Completed};
ghost use Rattle.normal_equations.specs.Placed.{ColumnPut, Equations};

use self::matrix::{matrix_row, matrix_rows};
use self::rows::copy;
use self::sums::dot;
use common::{DECISION_NUMBERS, ResidualNumbers};

pub mod matrix;
pub mod rows;
pub mod sums;

// The step of a forward difference, by which the difference is divided.
pub const FD_EPS: f64 = 1.0e-6;

// Every number becomes +0.0.
pub fn clear(v: &mut [f64])
    ensures { v.new ≡ replicate (length v.old) Floats.plus_zero }
{
    v.fill(0.0);
}

// The residuals rp of a moved decision against those of the decision, r0.
fn put_slopes(column: &mut [f64], rp: &ResidualNumbers, r0: &ResidualNumbers)
    requires { length column.old ≤ 79 }
    ensures { column.new ≡ Normal.slopes (length column.old) rp.now r0.now }
{
    for i in 0..column.len() {
        column[i] = (rp[i] - r0[i]) / FD_EPS;
    }
}

// Column c of the columns of m numbers in v, of the residuals rp of the moved decision against r0: all else in v stays.
pub fn put_column(v: &mut [f64], m: usize, c: usize, rp: &ResidualNumbers, r0: &ResidualNumbers)
    requires { (m ≤ 79) × (c * m + m ≤ length v.old) }
    ensures { ColumnPut m c (Normal.slopes m rp.now r0.now) v.old v.new }
{
    let at = c * m;
    put_slopes(&mut v[at..at + m], rp, r0);
}

// The Gram matrix of n columns of m numbers, which lie in front of it: only the matrix is changed.
pub fn gram_matrix(v: &mut [f64], n: usize, m: usize)
    requires { (n ≤ 193) × (length v.old ≡ n * m + n * n) }
    ensures { (take (n * m) v.new ≡ take (n * m) v.old)
        × (rows n n (drop (n * m) v.new) ≡ Normal.gram n m (rows n m (take (n * m) v.old))) }
{
    let mut row = [0.0; DECISION_NUMBERS];
    let mut next = [0.0; DECISION_NUMBERS];
    for p in 0..n / 2 {
        matrix_rows(v, m, 2 * p, &mut row[..n], &mut next[..n]);
    }
    if n % 2 == 1 {
        matrix_row(v, m, n - 1, &mut row[..n]);
    }
}

// The damping factor is added on the diagonal of n rows of n numbers.
fn damp(a: &mut [f64], n: usize, lambda: f64)
    requires { (n ≤ 193) × (length a.old ≡ n * n) }
    ensures { rows n n a.new ≡ Normal.damped n lambda (rows n n a.old) }
{
    for k in 0..n {
        a[k * n + k] += lambda;
    }
}

// The right side, of the columns of m numbers in j and the residuals r.
pub fn right_side(g: &mut [f64], j: &[f64], m: usize, r: &[f64])
    requires { (m ≤ length r.now) × (length j.now ≡ length g.old * m) }
    ensures { g.new ≡ Normal.right_side (length g.old) m (rows (length g.old) m j.now) r.now }
{
    for c in 0..g.len() {
        g[c] = -dot(&j[c * m..c * m + m], r);
    }
}

// The normal equations of g.len() columns of m numbers, which begin v and stay, with their Gram matrix behind them: it is damped there, the right side comes to g.
fn complete_equations(v: &mut [f64], m: usize, r: &[f64], lambda: f64, g: &mut [f64])
    requires { (length g.old ≤ 193) × (m ≤ length r.now) × (length v.old ≡ length g.old * m + length g.old * length g.old) }
    ensures { Completed (length g.old) m v.old r.now lambda v.new g.new }
{
    let n = g.len();
    let o = n * m;
    right_side(g, &v[..o], m, r);
    damp(&mut v[o..], n, lambda);
}

// The normal equations of g.len() columns of m numbers, which begin v and stay: the matrix behind them, the right side in g.
pub fn equations(v: &mut [f64], m: usize, r: &[f64], lambda: f64, g: &mut [f64])
    requires { (length g.old ≤ 193) × (m ≤ length r.now) × (length v.old ≡ length g.old * m + length g.old * length g.old) }
    ensures { Equations (length g.old) m v.old r.now lambda v.new g.new }
{
    gram_matrix(v, g.len(), m);
    complete_equations(v, m, r, lambda, g);
}

// The same where the columns' Gram matrix was kept.
pub fn kept_equations(v: &mut [f64], m: usize, r: &[f64], lambda: f64, gram: &[f64], g: &mut [f64])
    requires { (length g.old ≤ 193)
        × (m ≤ length r.now)
        × (length v.old ≡ length g.old * m + length g.old * length g.old)
        × (length gram.now ≡ length g.old * length g.old)
        × (rows (length g.old) (length g.old) gram.now ≡ Normal.gram (length g.old) m (rows (length g.old) m (take (length g.old * m) v.old))) }
    ensures { Equations (length g.old) m v.old r.now lambda v.new g.new }
{
    let o = g.len() * m;
    copy(&mut v[o..], gram);
    complete_equations(v, m, r, lambda, g);
}
