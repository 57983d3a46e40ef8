// planner: the profile of a problem as declared, as its 22 numbers (see export_leaves). `place` gets a refusal's place, or 0.
ghost use Rattle.planner.specs.Plans as Plans;
ghost use Rattle.export_leaves.specs.Outcomes.{AnsweredAt, of_profiled};
ghost use Rattle.export.specs.Entries as Entries;

use export_leaves::courses::put_profile;
use export_leaves::pack::place_of;
use problem::CheckedProblem;
use problem_numbers::problem_of;

// The profile of a problem that has passed checks 1 to 6 and 22.
fn put_checked(p: CheckedProblem, out: &mut [f64; 22], place: &mut usize) -> usize
    ensures { AnsweredAt (of_profiled (Plans.profiled p)) result place.new out.old out.new }
{
    let made = planner::profiled(p);
    let fate = made.fate;
    *place = place_of(fate);
    put_profile(made, out)
}

// The profile of a problem as declared, of which `plan` takes its seed: its alpha is what dense samples are asked for with.
pub fn slew_problem_profile(
    c: &[usize; 11],
    v: &[f64; 100],
    b: &[f64; 37],
    limited: bool,
    out: &mut [f64; 22],
    place: &mut usize,
) -> usize
    ensures { AnsweredAt (Entries.profile c.now v.now b.now limited)
        result place.new out.old out.new }
{
    let checked = problem::check(problem_of(c, v, b, limited));
    let fate = checked.fate;
    match fate {
        Err(refusal) => {
            *place = refusal.place;
            refusal.number
        }
        Ok(()) => {
            let p = checked.problem;
            put_checked(p, out, place)
        }
    }
}
