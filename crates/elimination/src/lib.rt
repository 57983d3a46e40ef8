// Gauss-Jordan elimination.
// Carried over from quatopsy-plan/src/scvx.rs (Apache-2.0), changed: parts of a workspace are lent, and two columns are taken at a time.
#![tactic(auto)]

ghost use Rattle.std.specs.Prelude.{◌≡◌, ◌*◌, ◌≤◌, length};
ghost use Rattle.normal_equations.specs.Rows.{rows};
ghost use Rattle.elimination.specs.Elimination as Elimination;

use self::columns::{column, columns};
use common::DECISION_NUMBERS;

pub mod columns;
pub mod pivots;
pub mod rows;

// Gauss-Jordan elimination with partial pivoting of n rows of n numbers; b becomes the answer. False where a pivot is too small: what b holds then is free.
// What is left in a is free either way.
pub fn solve_dense(a: &mut [f64], b: &mut [f64]) -> bool
    requires { (length b.old ≤ 193) × (length a.old ≡ length b.old * length b.old) }
    ensures { Elimination.told result b.new
        ≡ Elimination.solve_dense (length b.old) (rows (length b.old) (length b.old) a.old)
        b.old }
{
    let n = b.len();
    let mut top = [0.0; DECISION_NUMBERS];
    let mut next = [0.0; DECISION_NUMBERS];
    let mut spare = [0.0; DECISION_NUMBERS];
    let mut col = [0.0; DECISION_NUMBERS];
    for p in 0..n / 2 {
        if !columns(
            a,
            b,
            &mut top[..n],
            &mut next[..n],
            &mut spare[..n],
            &mut col[..n],
            2 * p,
        ) {
            return false;
        }
    }
    if n % 2 == 0 {
        return true;
    }
    column(a, b, &mut top[..n], &mut spare[..n], &mut col[..n], n - 1)
}
