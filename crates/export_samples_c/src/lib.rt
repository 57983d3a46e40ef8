// A path's dense samples as one list, as C calls them: the function calls that of export_samples with the same name, and promises the same.
//
// `rt lib` in this folder writes out/libexport_samples_c.a, which C callers have as libexport_samples.a. What a call is lent and told stands at the
// functions of export_samples, and in include/slew.h.
#![tactic(auto)]

ghost use Rattle.export_samples.specs.Entries as Entries;

#[unsafe(no_mangle)]
pub extern "C" fn slew_sample_list(
    j: &[f64; 9],
    tolerance: f64,
    duration: f64,
    nodes: &[[f64; 22]; 17],
    requested: usize,
    alpha: f64,
    out: &mut [[f64; 14]],
    rows: &mut usize,
    place: &mut usize,
) -> usize
    ensures tells { Entries.Tells j.now tolerance duration nodes.now requested alpha out.old result place.new }
    ensures writes { Entries.Writes j.now tolerance duration nodes.now requested alpha out.old
        rows.new out.new }
{
    export_samples::slew_sample_list(
        j, tolerance, duration, nodes, requested, alpha, out, rows, place,
    )
}
