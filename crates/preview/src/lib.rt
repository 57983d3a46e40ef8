// Ask, then commit: a slew is previewed from the wheel momenta on record, and started later if the record still has the same bits.
#![tactic(auto)]

ghost use Rattle.std.specs.Prelude.{◌≡◌, length};
ghost use Rattle.problem.specs.Problems as Problems;
ghost use Rattle.planner.specs.Plans as Plans;
ghost use Rattle.planner.specs.Promises as Promises;
ghost use Rattle.wheel_momenta.specs.Successive as Successive;
ghost use Rattle.preview.specs.Previews as Previews;

use common::Refusal;
use planner::{Planned, plan, plan_from};
use problem::{Momenta, Problem};
use wheel_momenta::{last_momenta, with_momenta};
use wheel_record::{Started, commit};

// What a preview answers: the momenta that it began from, and the plan.
#[derive(Clone, Copy)]
pub struct Previewed {
    pub began: Momenta,
    pub planned: Planned,
}

// The plan of a problem from the momenta on record; the problem's own are not read. With our own seed, on a lent workspace.
pub fn preview(on_record: Momenta, p: Problem, ws: &mut [f64]) -> Previewed
    ensures value { result ≡ Previews.preview on_record p (length ws.old) }
    ensures ws_after { ws.new ≡ Plans.leaves result.planned.runs ws.old }
    ensures answers { Promises.Answers (Successive.with_momenta p on_record)
        (Promises.own_seed (Problems.check (Successive.with_momenta p on_record)).problem) result.planned }
{
    let turning = with_momenta(p, on_record);
    let planned = plan(turning, ws);
    Previewed {
        began: on_record,
        planned: planned,
    }
}

// The same with a caller's seed: a duration, 17 rates and 17 torques, three numbers a node.
pub fn preview_from(
    on_record: Momenta,
    p: Problem,
    duration: f64,
    rates: &[f64],
    torques: &[f64],
    ws: &mut [f64],
) -> Previewed
    ensures value { result ≡ Previews.preview_from on_record p duration rates.now torques.now (length ws.old) }
    ensures ws_after { ws.new ≡ Plans.leaves result.planned.runs ws.old }
    ensures answers { Promises.Answers (Successive.with_momenta p on_record)
        (Plans.seed_of (Problems.check (Successive.with_momenta p on_record)).problem duration torques.now) result.planned }
{
    let turning = with_momenta(p, on_record);
    let planned = plan_from(turning, duration, rates, torques, ws);
    Previewed {
        began: on_record,
        planned: planned,
    }
}

// Whether a plan was answered.
fn answered(fate: Result<(), Refusal>) -> bool
    ensures { result ≡ Previews.answered fate }
{
    match fate {
        Ok(()) => true,
        Err(_) => false,
    }
}

// The start of a preview: the record becomes the path's last momenta, or stays, with 26.
pub fn start(on_record: Momenta, preview: Previewed) -> Started
    ensures { result ≡ Previews.start on_record preview }
{
    let began = preview.began;
    let planned = preview.planned;
    let fate = planned.fate;
    let path = planned.path;
    let last = last_momenta(path);
    commit(on_record, answered(fate), began, last)
}
