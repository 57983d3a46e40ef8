// forward, residuals: one forward run of a problem as declared and a packed decision, a duration and 16 rows of controls; its residuals.
//
// Of a refused run the nodes, the defect, the residuals and their count are zeros. A row of `nodes`: time, attitude, rate, torque, body momentum, wheel
// momenta.
ghost use Rattle.export_runs.specs.Paths as Paths;

use export_leaves::pack::{number_of, place_of};
use problem_numbers::problem_of;
use samples::rows::rows;

pub fn slew_reconstruct(
    c: &[usize; 11],
    v: &[f64; 100],
    b: &[f64; 37],
    limited: bool,
    z: &[f64; 193],
    nodes: &mut [[f64; 22]; 17],
    defect: &mut f64,
    place: &mut usize,
    runs: &mut usize,
) -> usize
    ensures { Paths.RunTold (Paths.reconstructed c.now v.now b.now limited z.now)
        result place.new runs.new nodes.new defect.new }
{
    let p = problem_of(c, v, b, limited);
    let made = forward::reconstruct(p, *z);
    let run = made.run;
    let fate = run.fate;
    let path = run.nodes;
    *place = place_of(fate);
    *runs = made.runs;
    *defect = run.defect;
    *nodes = rows(path);
    number_of(fate)
}

// The residuals: the first `count` of `out`, zeros past them.
pub fn slew_residuals(
    c: &[usize; 11],
    v: &[f64; 100],
    b: &[f64; 37],
    limited: bool,
    z: &[f64; 193],
    out: &mut [f64; 79],
    count: &mut usize,
    place: &mut usize,
    runs: &mut usize,
) -> usize
    ensures { Paths.ResidualsTold (Paths.measured c.now v.now b.now limited z.now)
        result place.new runs.new out.new count.new }
{
    let p = problem_of(c, v, b, limited);
    let measured = residuals::residuals(p, *z);
    let made = measured.residuals;
    let fate = made.fate;
    let r = made.r;
    *place = place_of(fate);
    *runs = measured.runs;
    *count = made.count;
    *out = r;
    number_of(fate)
}
