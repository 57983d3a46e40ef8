// The C interface of eigenaxis plans, thin over the proved library. export_eigenaxis_c gives the function its C symbol and makes the archive.
// What is lent and told is as in `export::plans`; the runs are those of every try.
#![tactic(auto)]

ghost use Rattle.std.specs.Prelude.{◌≡◌, length};
ghost use Rattle.export.specs.Entries.{EntryTold};
ghost use Rattle.export_eigenaxis.specs.Entries as Entries;

use eigenaxis::plan_counted;
use eigenaxis_seed::Shape;
use export::plans::put_planned;
use problem_numbers::problem_of;

fn shape_of(gentle: bool) -> Shape
    ensures { result ≡ Entries.shape_of gentle }
{
    if gentle {
        Shape::Gentle
    } else {
        Shape::Fastest
    }
}

// The eigenaxis plan of a problem in numbers: the fastest shape, or the gentle one.
pub fn slew_plan_eigenaxis_numbers(
    c: &[usize; 11],
    v: &[f64; 100],
    b: &[f64; 37],
    limited: bool,
    gentle: bool,
    ws: &mut [f64],
    counts: &mut [usize; 5],
    duration: &mut f64,
    max_defect: &mut f64,
    z: &mut [f64; 193],
    nodes: &mut [[f64; 22]; 17],
    held: &mut [usize; 12],
) -> usize
    ensures { EntryTold (Entries.about c.now v.now b.now limited gentle (length ws.old))
        ws.old ws.new result
        counts.new duration.new max_defect.new z.new nodes.new held.new }
{
    let shape = shape_of(gentle);
    let p = problem_of(c, v, b, limited);
    let planned = plan_counted(p, shape, ws);
    put_planned(planned, counts, duration, max_defect, z, nodes, held)
}
