// Reference trajectories, as C calls them: each function calls that of export_reference with the same name, and promises the same.
//
// `rt lib` in this folder writes out/libexport_reference_c.a, which C callers have as libexport_reference.a. What a call is lent and told stands at
// the functions of export_reference, and in include/slew.h.
#![tactic(auto)]

ghost use Rattle.export_reference.specs.Entries as Entries;

#[unsafe(no_mangle)]
pub extern "C" fn slew_plan_reference_numbers(
    c: &[usize; 11],
    v: &[f64; 100],
    b: &[f64; 37],
    limited: bool,
    timed: bool,
    given: f64,
    steps: usize,
    counts: &mut [usize; 3],
    duration: &mut f64,
    end: &mut [f64; 8],
) -> usize
    ensures { Entries.EntryTold (Entries.about c.now v.now b.now limited timed given steps) result
        counts.new duration.new end.new }
{
    export_reference::slew_plan_reference_numbers(
        c, v, b, limited, timed, given, steps, counts, duration, end,
    )
}

#[unsafe(no_mangle)]
pub extern "C" fn slew_reference_list_numbers(
    c: &[usize; 11],
    v: &[f64; 100],
    b: &[f64; 37],
    limited: bool,
    timed: bool,
    given: f64,
    steps: usize,
    out: &mut [[f64; 31]],
    written: &mut usize,
    counts: &mut [usize; 3],
    duration: &mut f64,
    end: &mut [f64; 8],
) -> usize
    ensures { Entries.ListTold (Entries.about c.now v.now b.now limited timed given steps)
        out.old out.new written.new result counts.new duration.new end.new }
{
    export_reference::slew_reference_list_numbers(
        c, v, b, limited, timed, given, steps, out, written, counts, duration, end,
    )
}
