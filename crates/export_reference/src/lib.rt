// The C interface of reference trajectories, thin over the proved library. export_reference_c gives the functions their C symbols
// and makes the archive. A problem's numbers are as in problem_numbers.
//
// `counts` gets a refusal's place, the trials of durations and the samples that they evaluated; `end` the momenta of eight wheels in the last sample. Beside a refusal `duration` and
// `end` have no meaning.
#![tactic(auto)]

ghost use Rattle.std.specs.Prelude.{◌≡◌, ◌+◌, ◌≤◌, length};
ghost use Rattle.export_reference.specs.Entries as Entries;
ghost use Rattle.export_reference.specs.Rows as Rows;

use self::rows::{put_rows, row_count};
use export_leaves::pack::{limit_of, number_of, place_of};
use problem_numbers::problem_of;
use reference::plan::{Planned, plan};
use reference_checks::sample_of;

pub mod rows;

// A refusal's number, or 0; the rest is put into what is lent for it.
fn put_planned(x: Planned, counts: &mut [usize; 3], duration: &mut f64, end: &mut [f64; 8]) -> usize
    requires { (x.reference.count ≤ 12) × (x.reference.steps ≤ 100000) }
    ensures { Entries.PlanTold x result counts.new duration.new end.new }
{
    let h = sample_of(x.reference, x.reference.steps).h;
    *counts = [place_of(x.fate), x.trials, x.samples];
    *duration = x.reference.duration;
    *end = [h[0], h[1], h[2], h[3], h[4], h[5], h[6], h[7]];
    number_of(x.fate)
}

// The parameters stand one by one: the C interface.
// The reference of a problem in numbers at so many steps: at the duration `given`, or, where `timed` is false, at the shortest that the search finds.
pub fn slew_plan_reference_numbers(
    c: &[usize; 11],
    v: &[f64; 100],
    b: &[f64; 37],
    limited: bool,
    timed: bool,
    given: f64,
    steps: usize,
    counts: &mut [usize; 3],
    duration: &mut f64,
    end: &mut [f64; 8],
) -> usize
    ensures { Entries.EntryTold (Entries.about c.now v.now b.now limited timed given steps) result
        counts.new duration.new end.new }
{
    let p = problem_of(c, v, b, limited);
    let planned = plan(p, limit_of(timed, given), steps);
    put_planned(planned, counts, duration, end)
}

// The same, and its samples: a row of 31 numbers a sample, as many as there are and as rows are lent. What stands behind them stays. Beside a refusal no row is written.
pub fn slew_reference_list_numbers(
    c: &[usize; 11],
    v: &[f64; 100],
    b: &[f64; 37],
    limited: bool,
    timed: bool,
    given: f64,
    steps: usize,
    out: &mut [[f64; 31]],
    written: &mut usize,
    counts: &mut [usize; 3],
    duration: &mut f64,
    end: &mut [f64; 8],
) -> usize
    ensures { Entries.ListTold (Entries.about c.now v.now b.now limited timed given steps)
        out.old out.new written.new result counts.new duration.new end.new }
{
    let p = problem_of(c, v, b, limited);
    let planned = plan(p, limit_of(timed, given), steps);
    let n = row_count(planned, out.len());
    put_rows(planned.reference, n, out);
    *written = n;
    put_planned(planned, counts, duration, end)
}
