// What the elimination does to the rows of a matrix.
ghost use Rattle.std.specs.Prelude.{◌≡◌, ◌+◌, ◌*◌, ◌≤◌, ◌<◌, length};
ghost use Rattle.normal_equations.specs.FilledInner.{OneRow};
ghost use Rattle.normal_equations.specs.Rows.{row, rows};
ghost use Rattle.elimination.specs.Inner as Inner;
ghost use Rattle.elimination.specs.Elimination as Elimination;

use normal_equations::rows::{copy, put_row};

// row /= row[k], from k on.
fn divide(row: &mut [f64], k: usize)
    requires { k < length row.old }
    ensures { row.new ≡ Elimination.divided (length row.old) k row.old }
{
    let d = row[k];
    for j in k..row.len() {
        row[j] /= d;
    }
}

// row -= f * top, from k on.
fn take_row(row: &mut [f64], top: &[f64], f: f64, k: usize)
    requires { (k < length row.old) × (length top.now ≡ length row.old) }
    ensures { row.new ≡ Elimination.less (length row.old) k f top.now row.old }
{
    for j in k..row.len() {
        row[j] -= f * top[j];
    }
}

// Row i of elimination in column k, top being row k.
pub fn elim_row(a: &mut [f64], top: &[f64], k: usize, i: usize)
    requires { (k < length top.now) × (i * length top.now + length top.now ≤ length a.old) }
    ensures { OneRow i
        (Elimination.eliminated_row (length top.now) k top.now i (row (length top.now) a.old i))
        (row (length top.now) a.old) (row (length top.now) a.new) }
{
    if i == k {
        return;
    }
    let s = i * top.len();
    let f = a[s + k];
    take_row(&mut a[s..s + top.len()], top, f, k);
}

// Elimination in column k, top being row k.
pub fn eliminate(a: &mut [f64], top: &[f64], k: usize)
    requires { (k < length top.now) × (length a.old ≡ length top.now * length top.now) × (top.now ≡ row (length top.now) a.old k) }
    ensures { rows (length top.now) (length top.now) a.new
        ≡ Elimination.eliminate (length top.now) k (rows (length top.now) (length top.now) a.old) }
{
    for i in 0..top.len() {
        elim_row(a, top, k, i);
    }
}

// row less f times t, then less g times u, from k on and from k + 1 on; f and g are its numbers there, each at its turn.
fn take_two(row: &mut [f64], t: &[f64], u: &[f64], k: usize)
    requires { (k + 1 < length row.old) × (length t.now ≡ length row.old) × (length u.now ≡ length row.old) }
    ensures { row.new ≡ Inner.less_two (length row.old) k t.now u.now row.old }
{
    let l = k + 1;
    let f = row[k];
    let g = row[l] - f * t[l];
    row[k] = f - f * t[k];
    for j in l..row.len() {
        row[j] = row[j] - f * t[j] - g * u[j];
    }
}

// Row i of elimination in columns k and k + 1, t and u being the rows by which it is done.
fn two_row(a: &mut [f64], t: &[f64], u: &[f64], k: usize, i: usize)
    requires { (k + 1 < length t.now) × (length u.now ≡ length t.now) × (i * length t.now + length t.now ≤ length a.old) }
    ensures { OneRow i
        (Inner.two_row (length t.now) k t.now u.now i (row (length t.now) a.old i))
        (row (length t.now) a.old) (row (length t.now) a.new) }
{
    if i == k {
        elim_row(a, u, k + 1, i);
        return;
    }
    if i == k + 1 {
        return;
    }
    let s = i * t.len();
    take_two(&mut a[s..s + t.len()], t, u, k);
}

// Elimination in columns k and k + 1, each number being read and written once for both.
pub fn eliminate_two(a: &mut [f64], t: &[f64], u: &[f64], k: usize)
    requires { (k + 1 < length t.now) × (length u.now ≡ length t.now) × (length a.old ≡ length t.now * length t.now) }
    ensures { rows (length t.now) (length t.now) a.new
        ≡ Inner.eliminate_two (length t.now) k t.now u.now a.old }
{
    for i in 0..t.len() {
        two_row(a, t, u, k, i);
    }
}

// Rows k and p change places and row k is divided, by the number that is returned; top is row k then, spare is scratch.
pub fn place_rows(a: &mut [f64], top: &mut [f64], spare: &mut [f64], k: usize, p: usize) -> f64
    requires { (k < length top.old)
        × (p < length top.old)
        × (length spare.old ≡ length top.old)
        × (length a.old ≡ length top.old * length top.old) }
    ensures { Inner.Placed (length top.old) k p a.old a.new top.new result }
{
    let n = top.len();
    copy(spare, &a[k * n..k * n + n]);
    copy(top, &a[p * n..p * n + n]);
    let d = top[k];
    divide(top, k);
    put_row(a, p, spare);
    put_row(a, k, top);
    d
}
