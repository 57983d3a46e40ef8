// The step of a Levenberg-Marquardt iteration. Carried over from `solve` of quatopsy-plan/src/scvx.rs (Apache-2.0), changed: parts of a workspace are lent, and
// columns that stay from one iteration to the next are summed once: their Gram matrix is kept.
#![tactic(auto)]

ghost use Rattle.std.specs.Prelude.{◌≡◌, ◌+◌, ◌*◌, ◌≤◌, length, take};
ghost use Rattle.normal_equations.specs.Rows.{rows};
ghost use Rattle.elimination.specs.Elimination as Elimination;
ghost use Rattle.damped_steps.specs.Gram.{GramKept};

use elimination::solve_dense;
use normal_equations::rows::copy;
use normal_equations::{equations, gram_matrix, kept_equations};

// The Gram matrix of the n columns of m numbers that begin v, kept in the front of gram if it has room there. The columns stay; what lies behind them is free
// afterwards.
pub fn keep_gram(v: &mut [f64], n: usize, m: usize, gram: &mut [f64])
    requires { (n ≤ 193) × (length v.old ≡ n * m + n * n) }
    ensures { (take (n * m) v.new ≡ take (n * m) v.old)
        × GramKept n m (rows n m (take (n * m) v.old)) gram.new }
{
    let size = n * n;
    if gram.len() < size {
        return;
    }
    gram_matrix(v, n, m);
    let o = n * m;
    copy(&mut gram[..size], &v[o..]);
}

// The step: v holds g.len() columns of m numbers, which stay, and after them room for the matrix, which is free afterwards; g becomes the step. False where the
// equations are singular: what g holds then is free.
pub fn damped_step(v: &mut [f64], m: usize, r: &[f64], lambda: f64, g: &mut [f64]) -> bool
    requires { (length g.old ≤ 193) × (m ≤ length r.now) × (length v.old ≡ length g.old * m + length g.old * length g.old) }
    ensures { (take (length g.old * m) v.new ≡ take (length g.old * m) v.old)
        × (Elimination.told result g.new
        ≡ Elimination.damped_step (length g.old) m (rows (length g.old) m (take (length g.old * m) v.old))
        r.now lambda) }
{
    let n = g.len();
    let o = n * m;
    equations(v, m, r, lambda, g);
    solve_dense(&mut v[o..], g)
}

// The same, where the columns' Gram matrix was kept if gram has room for it.
pub fn kept_step(
    v: &mut [f64],
    m: usize,
    r: &[f64],
    lambda: f64,
    gram: &[f64],
    g: &mut [f64],
) -> bool
    requires { (length g.old ≤ 193)
        × (m ≤ length r.now)
        × (length v.old ≡ length g.old * m + length g.old * length g.old)
        × GramKept (length g.old) m (rows (length g.old) m (take (length g.old * m) v.old)) gram.now }
    ensures { (take (length g.old * m) v.new ≡ take (length g.old * m) v.old)
        × (Elimination.told result g.new
        ≡ Elimination.damped_step (length g.old) m (rows (length g.old) m (take (length g.old * m) v.old))
        r.now lambda) }
{
    let n = g.len();
    let size = n * n;
    if size > gram.len() {
        return damped_step(v, m, r, lambda, g);
    }
    let o = n * m;
    kept_equations(v, m, r, lambda, &gram[..size], g);
    solve_dense(&mut v[o..], g)
}
