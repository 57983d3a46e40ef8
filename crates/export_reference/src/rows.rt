// The samples of a reference as rows of 31 numbers: time, attitude, rate, its derivative, the momenta of eight wheels, the controls of the step that begins there.
ghost use Rattle.std.specs.Prelude.{◌≡◌, ◌+◌, ◌≤◌, length};
ghost use Rattle.export_reference.specs.Rows as Rows;

use common::Refusal;
use reference::plan::Planned;
use reference_checks::sample_of;
use reference_motion::{Reference, Sample, controls, fraction};

// The controls of the step that begins at sample k; zeros at the last one.
fn step_controls(r: Reference, k: usize) -> [f64; 12]
    requires { (r.count ≤ 12) × ((k ≤ 100000) × (r.steps ≤ 100000)) }
    ensures { result ≡ Rows.step_controls r k }
{
    if k < r.steps {
        let first = sample_of(r, k);
        let next = sample_of(r, k + 1);
        controls(r, k, first.h, next.h)
    } else {
        [0.0; 12]
    }
}

// The numbers of a sample at the time t with the controls u.
fn numbers(t: f64, s: Sample, u: [f64; 12]) -> [f64; 31]
    ensures { result ≡ Rows.numbers t s u }
{
    let Sample { q, w, a, h, .. } = s;
    [
        t, q.w, q.x, q.y, q.z, w[0], w[1], w[2], a[0], a[1], a[2], h[0], h[1], h[2], h[3], h[4],
        h[5], h[6], h[7], u[0], u[1], u[2], u[3], u[4], u[5], u[6], u[7], u[8], u[9], u[10], u[11],
    ]
}

// Row k.
fn row_of(r: Reference, k: usize) -> [f64; 31]
    requires { (r.count ≤ 12) × ((k ≤ 100000) × (r.steps ≤ 100000)) }
    ensures { result ≡ Rows.row r k }
{
    let t = r.duration * fraction(k, r.steps);
    numbers(t, sample_of(r, k), step_controls(r, k))
}

// How many rows are written where so many are lent: none of a refusal.
pub fn row_count(x: Planned, lent: usize) -> usize
    requires { x.reference.steps ≤ 100000 }
    ensures { (result ≡ Rows.count x lent) × ((result ≤ lent) × (result ≤ x.reference.steps + 1)) }
{
    match x.fate {
        Err(_) => 0,
        Ok(()) => lent.min(x.reference.steps + 1),
    }
}

// The first n rows.
pub fn put_rows(r: Reference, n: usize, out: &mut [[f64; 31]])
    requires { (r.count ≤ 12) × ((r.steps ≤ 100000) × ((n ≤ r.steps + 1) × (n ≤ length out.old))) }
    ensures { out.new ≡ Rows.written r out.old n }
{
    for k in 0..n {
        out[k] = row_of(r, k);
    }
}
