// The C interface of a path's dense samples as one list, thin over the proved library. export_samples_c gives the function its C symbol
// and makes the archive.
//
// In C an `&mut [[f64; 14]]` is a pointer to rows of 14 numbers and a count of rows. The function answers the refusal's number, or 0 where the list is whole.
#![tactic(auto)]

ghost use Rattle.export_samples.specs.Entries as Entries;

use export_leaves::pack::{number_of, place_of};

// All samples of a path: a row of 14 numbers a sample, and how many rows were written. What stands behind them stays. Fewer rows lent than there are samples get nothing: 99.
pub fn slew_sample_list(
    j: &[f64; 9],
    tolerance: f64,
    duration: f64,
    nodes: &[[f64; 22]; 17],
    requested: usize,
    alpha: f64,
    out: &mut [[f64; 14]],
    rows: &mut usize,
    place: &mut usize,
) -> usize
    ensures tells { Entries.Tells j.now tolerance duration nodes.now requested alpha out.old result place.new }
    ensures writes { Entries.Writes j.now tolerance duration nodes.now requested alpha out.old
        rows.new out.new }
{
    let inertia = geom::tensor(*j);
    let made = sample_lists::sample_list(
        inertia, tolerance, duration, nodes, requested, alpha, out,
    );
    *rows = made.rows;
    *place = place_of(made.fate);
    number_of(made.fate)
}
