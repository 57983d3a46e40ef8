// planner: both entries on a problem as declared and a lent workspace.
//
// `counts` gets a refusal's place, the forward runs begun, and of a path its controls in a row, its wheels and its iterations; `max_defect` the largest defect
// of its run; `held` for each place of a row how many of its 16 controls were held to their limit in the projection that made the decision. Beside a refusal
// the path is zeros. The workspace is untouched where no forward run began, and all +0 otherwise.
ghost use Rattle.std.specs.Prelude.{length};
ghost use Rattle.export.specs.Entries as Entries;
ghost use Rattle.export.specs.Entries.{PlanTold, EntryTold};

use export_leaves::pack::{number_of, place_of};
use planner::Planned;
use problem_numbers::problem_of;
use samples::rows::rows;

// A refusal's number, or 0; the path is put into what is lent for it.
pub fn put_planned(
    r: Planned,
    counts: &mut [usize; 5],
    duration: &mut f64,
    max_defect: &mut f64,
    z: &mut [f64; 193],
    nodes: &mut [[f64; 22]; 17],
    held: &mut [usize; 12],
) -> usize
    ensures { PlanTold r result
        counts.new duration.new max_defect.new z.new nodes.new held.new }
{
    let fate = r.fate;
    let path = r.path;
    let decision = path.z;
    let visited = path.nodes;
    let stops = path.held;
    let place = place_of(fate);
    *counts = [place, r.runs, path.controls, path.wheels, path.iterations];
    *duration = path.duration;
    *max_defect = path.max_defect;
    *z = decision;
    *nodes = rows(visited);
    *held = stops;
    number_of(fate)
}

// Our entry's seed.
pub fn slew_plan_numbers(
    c: &[usize; 11],
    v: &[f64; 100],
    b: &[f64; 37],
    limited: bool,
    ws: &mut [f64],
    counts: &mut [usize; 5],
    duration: &mut f64,
    max_defect: &mut f64,
    z: &mut [f64; 193],
    nodes: &mut [[f64; 22]; 17],
    held: &mut [usize; 12],
) -> usize
    ensures { EntryTold (Entries.own c.now v.now b.now limited (length ws.old))
        ws.old ws.new result
        counts.new duration.new max_defect.new z.new nodes.new held.new }
{
    let p = problem_of(c, v, b, limited);
    let planned = planner::plan(p, ws);
    put_planned(planned, counts, duration, max_defect, z, nodes, held)
}

// A caller's seed: a duration, 17 rates and 17 torques, three numbers a node.
pub fn slew_plan_from_numbers(
    c: &[usize; 11],
    v: &[f64; 100],
    b: &[f64; 37],
    limited: bool,
    seed_duration: f64,
    rates: &[f64],
    torques: &[f64],
    ws: &mut [f64],
    counts: &mut [usize; 5],
    duration: &mut f64,
    max_defect: &mut f64,
    z: &mut [f64; 193],
    nodes: &mut [[f64; 22]; 17],
    held: &mut [usize; 12],
) -> usize
    ensures { EntryTold
        (Entries.seeded c.now v.now b.now limited seed_duration rates.now torques.now
        (length ws.old))
        ws.old ws.new result
        counts.new duration.new max_defect.new z.new nodes.new held.new }
{
    let p = problem_of(c, v, b, limited);
    let planned = planner::plan_from(p, seed_duration, rates, torques, ws);
    put_planned(planned, counts, duration, max_defect, z, nodes, held)
}
