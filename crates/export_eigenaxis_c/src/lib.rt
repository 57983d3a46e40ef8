// Plans about one axis, as C calls them: the function calls that of export_eigenaxis with the same name, and promises the same.
//
// `rt lib` in this folder writes out/libexport_eigenaxis_c.a, which C callers have as libexport_eigenaxis.a. What a call is lent and told stands at
// the functions of export_eigenaxis, and in include/slew.h.
#![tactic(auto)]

ghost use Rattle.std.specs.Prelude.{length};
ghost use Rattle.export.specs.Entries.{EntryTold};
ghost use Rattle.export_eigenaxis.specs.Entries as Entries;

#[unsafe(no_mangle)]
pub extern "C" fn slew_plan_eigenaxis_numbers(
    c: &[usize; 11],
    v: &[f64; 100],
    b: &[f64; 37],
    limited: bool,
    gentle: bool,
    ws: &mut [f64],
    counts: &mut [usize; 5],
    duration: &mut f64,
    max_defect: &mut f64,
    z: &mut [f64; 193],
    nodes: &mut [[f64; 22]; 17],
    held: &mut [usize; 12],
) -> usize
    ensures { EntryTold (Entries.about c.now v.now b.now limited gentle (length ws.old))
        ws.old ws.new result
        counts.new duration.new max_defect.new z.new nodes.new held.new }
{
    export_eigenaxis::slew_plan_eigenaxis_numbers(
        c, v, b, limited, gentle, ws, counts, duration, max_defect, z, nodes, held,
    )
}
