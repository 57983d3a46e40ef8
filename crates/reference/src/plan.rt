// The reference of a problem: its checks, its actuators' table, then a given duration or the shortest that the search finds.
ghost use Rattle.std.specs.Prelude.{◌≡◌, ◌≤◌, true};
ghost use Rattle.actuators.specs.Maps.{is_sized};
ghost use Rattle.reference.specs.Plans as Plans;
ghost use Rattle.reference_checks.specs.Promises as Promises;

use crate::prepare::{prepare_reference, with_times};
use crate::search::shortest;
use common::Refusal;
use geom::Quat;
use problem::{CheckedProblem, Problem, check};
use reference_checks::verify;
use reference_motion::Reference;

// The steps of the search's grid.
const COARSE: usize = 64;

// A reference that was verified, or a refusal beside one without meaning; and how many trials and samples were evaluated. No Result: `slew_plan_reference_numbers` writes all of
// these beside a refusal too.
#[derive(Clone, Copy)]
pub struct Planned {
    pub fate: Result<(), Refusal>,
    pub trials: usize,
    pub samples: usize,
    pub reference: Reference,
}

// A reference of nothing.
fn blank_reference() -> Reference
    ensures { result ≡ Plans.blank_reference }
{
    let q = Quat::new(0.0, 0.0, 0.0, 0.0);
    let three = [0.0; 3];
    let nine = [0.0; 9];
    let twelve = [0.0; 12];
    let axes = [0.0; 36];
    Reference {
        q0: q,
        qf: q,
        phi: three,
        duration: 0.0,
        steps: 0,
        inertia: nine,
        torque_limit: three,
        slew: None,
        wheels: false,
        count: 0,
        axes,
        inverse: nine,
        limits: twelve,
        momentum_limits: twelve,
        power_limits: twelve,
        start: twelve,
        total: three,
        null_momenta: twelve,
    }
}

// A refusal before any trial.
fn refuse(why: Refusal) -> Planned
    ensures { result ≡ Plans.refuse why }
{
    Planned {
        fate: Err(why),
        trials: 0,
        samples: 0,
        reference: blank_reference(),
    }
}

// A prepared reference at a given duration, or at the shortest that the search finds.
fn plan_prepared(r: Reference, duration: Option<f64>) -> Planned
    requires { (r.count ≤ 12) × (r.steps ≤ 100000) }
    ensures { (result ≡ Plans.plan_prepared r duration) × Plans.Answer result }
{
    match duration {
        Some(t) => {
            let reference = with_times(r, t, r.steps);
            let verdict = verify(reference);
            Planned {
                fate: verdict.fate,
                trials: 1,
                samples: verdict.samples,
                reference,
            }
        }
        None => {
            let found = shortest(r, COARSE);
            Planned {
                fate: found.fate,
                trials: found.trials,
                samples: found.samples,
                reference: with_times(r, found.duration, r.steps),
            }
        }
    }
}

// A checked problem.
fn plan_checked(c: CheckedProblem, duration: Option<f64>, steps: usize) -> Planned
    requires { (is_sized c.map ≡ true) × (steps ≤ 100000) }
    ensures { (result ≡ Plans.plan_checked c duration steps) × Plans.Answer result }
{
    match prepare_reference(c, 1.0, steps) {
        Err(why) => refuse(why),
        Ok(reference) => plan_prepared(reference, duration),
    }
}

// The reference of a problem at so many steps, at a given duration or at the shortest that the search finds. 20 of more than 100,000 steps.
pub fn plan(p: Problem, duration: Option<f64>, steps: usize) -> Planned
    ensures { (result ≡ Plans.plan p duration steps) × Plans.Answer result }
{
    if steps > 100000 {
        return refuse(Refusal {
            number: 20,
            place: 0,
        });
    }
    let checked = check(p);
    match checked.fate {
        Err(why) => refuse(why),
        Ok(()) => plan_checked(checked.problem, duration, steps),
    }
}
