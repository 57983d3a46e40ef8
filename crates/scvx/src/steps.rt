// The step of an iteration: normal equations, a trial, and the verdict on it. Carried over from `solve` and `apply_step` of quatopsy-plan/src/scvx.rs
// (Apache-2.0), changed: a trial's residuals are kept where it is taken, and the columns are formed and summed once a decision.
ghost use Rattle.std.specs.Prelude.{◌≡◌, ◌+◌, ◌*◌, ◌≤◌, ◌<◌, length};
ghost use Rattle.common.specs.Iter.{iter};
ghost use Rattle.actuators.specs.Maps.{control_dim};
ghost use Rattle.problem.specs.declared.CheckedProblem.{CheckedProblem};
ghost use Rattle.elimination.specs.Elimination.{damped_step};
ghost use Rattle.damped_steps.specs.Gram.{GramKept};
ghost use Rattle.kept_rows.specs.Kept.{Laid, kept, Zeros};
ghost use Rattle.scvx.specs.Search as Search;
ghost use Rattle.scvx.specs.ProgressInner.{Sizes, Known, Keeps, Holds, columns_in, step_as};

use super::columns::{jacobian, project};
use super::states::{
    begin_iteration, count_runs, move_to, trial_candidate, with_damping, with_state, with_status,
};
use super::{Candidate, LM_LAMBDA_MAX, Progress, Status, Trial};
use common::{DECISION_NUMBERS, DEFECT_TOL, Decision, ResidualNumbers};
use damped_steps::{keep_gram, kept_step};
use float::{max, min};
use held_counts::held_counts;
use kept_rows::{gather, kept};
use problem::CheckedProblem;
use residuals::terms::residuals_of;

// The decision moved by the step d.
fn apply_step(z: Decision, d: &[f64]) -> Decision
    requires { length d.now ≤ 193 }
    ensures { result ≡ iter (Search.add_turn_value d.now) z (length d.now) }
{
    let mut out = z;
    for i in 0..d.len() {
        out[i] = out[i] + d[i];
    }
    out
}

// The decision of a trial, and how many of its controls were held.
fn trial_of(p: CheckedProblem, z: Decision, d: &[f64]) -> Trial
    requires { (control_dim p.map ≤ 12) × ((length d.now ≤ 193) × (length d.now ≡ Search.numbers p)) }
    ensures { (result.z ≡ Search.trial_of p z d.now) × (result.held ≡ Search.trial_held p z d.now) }
{
    let moved = apply_step(z, d);
    Trial {
        z: project(p, moved),
        held: held_counts(p.map, p.torque_limit, &moved),
    }
}

// A trial t with the residuals r: it is taken where it is strictly shorter.
fn judge(g: Progress, t: Candidate, r: ResidualNumbers) -> Progress
    ensures { (result.state ≡ Search.judge g.state t) × ((p : CheckedProblem) → Known p t r → Keeps p g result) }
{
    let s = g.state;
    if t.residual < s.candidate.residual {
        return Progress {
            state: move_to(s, t, max(s.lambda * 0.3, 1.0e-8)),
            r,
            columns: false,
        };
    }
    with_state(g, with_damping(s, min(s.lambda * 4.0, LM_LAMBDA_MAX)))
}

// The trial of a step d: one run.
fn try_step(p: CheckedProblem, g: Progress, d: &[f64], m: usize) -> Progress
    requires { Sizes p (length d.now) m (length d.now * kept m + length d.now * length d.now) × (g.state.runs ≤ 8500) }
    ensures { (result.state ≡ Search.try_step p g.state d.now) × Keeps p g result }
{
    let s = g.state;
    let t = trial_of(p, s.candidate.z, d);
    let e = residuals_of(p, t.z);
    let s1 = count_runs(s, 1);
    match e.fate {
        Err(why) => with_state(g, with_status(s1, Status::Refused(why))),
        Ok(()) => judge(with_state(g, s1), trial_candidate(t, e.r, m), e.r),
    }
}

// The Gram matrix of the n columns of m numbers that have their kept rows in the front of ws, kept if gram has room for it. The columns stay.
fn sum_columns(ws: &mut [f64], gram: &mut [f64], n: usize, m: usize)
    requires { (n ≤ 193) × (Laid m × (n * kept m + n * n ≤ length ws.old)) }
    ensures { (columns_in n m ws.new ≡ columns_in n m ws.old)
        × GramKept n m (columns_in n m ws.old) gram.new }
{
    let w = kept(m);
    let end = n * w + n * n;
    keep_gram(&mut ws[..end], n, w, gram);
}

// The step of the equations whose n columns of m numbers have their kept rows in the front of ws, where they stay, and their Gram matrix in gram.
fn step_of(
    ws: &mut [f64],
    gram: &[f64],
    n: usize,
    m: usize,
    r: ResidualNumbers,
    lambda: f64,
) -> Option<Decision>
    requires { (n ≤ 193)
        × (Laid m × ((n * kept m + n * n ≤ length ws.old) × (Zeros m r × GramKept n m (columns_in n m ws.old) gram.now))) }
    ensures { (step_as n result ≡ damped_step n m (columns_in n m ws.old) r lambda)
        × (columns_in n m ws.new ≡ columns_in n m ws.old) }
{
    let w = kept(m);
    let mut front = r;
    gather(m, &mut front[..]);
    let end = n * w + n * n;
    let mut d = [0.0; DECISION_NUMBERS];
    if kept_step(&mut ws[..end], w, &front, lambda, gram, &mut d[..n]) {
        Some(d)
    } else {
        None
    }
}

// The step of an iteration whose columns stand there: its trial, or a stronger damping where the equations are singular.
fn take_step(
    p: CheckedProblem,
    ws: &mut [f64],
    gram: &[f64],
    n: usize,
    m: usize,
    g: Progress,
) -> Progress
    requires { Sizes p n m (length ws.old) × ((g.state.runs ≤ 8400) × (Zeros m g.r × GramKept n m (columns_in n m ws.old) gram.now)) }
    ensures { (result.state ≡ Search.take_step p g.state (columns_in n m ws.old) g.r)
        × (Keeps p g result
        × (columns_in n m ws.new ≡ columns_in n m ws.old)) }
{
    let s = g.state;
    let Some(d) = step_of(ws, gram, n, m, g.r, s.lambda) else {
        return with_state(g, with_damping(s, min(s.lambda * 8.0, LM_LAMBDA_MAX)));
    };
    try_step(p, g, &d[..n], m)
}

// The columns of the decision are formed and summed, then the step.
fn form_columns(
    p: CheckedProblem,
    ws: &mut [f64],
    gram: &mut [f64],
    n: usize,
    m: usize,
    g: Progress,
) -> Progress
    requires { Sizes p n m (length ws.old) × ((g.state.runs ≤ 8200) × Holds p (columns_in n m ws.old) gram.old g) }
    ensures { (result.state ≡ Search.linear_step p g.state g.r) × Holds p (columns_in n m ws.new) gram.new result }
{
    let s = g.state;
    match jacobian(p, ws, n, m, s.candidate.z, g.r) {
        Err(e) => Progress {
            state: with_status(count_runs(s, e.runs), Status::Refused(e.why)),
            columns: false,
            ..g
        },
        Ok(()) => {
            let whole = Progress {
                state: count_runs(s, n),
                columns: true,
                ..g
            };
            sum_columns(ws, gram, n, m);
            take_step(p, ws, gram, n, m, whole)
        }
    }
}

// The step of an iteration. Columns that stand there already are counted as runs, and neither formed nor summed again.
fn linear_step(
    p: CheckedProblem,
    ws: &mut [f64],
    gram: &mut [f64],
    n: usize,
    m: usize,
    g: Progress,
) -> Progress
    requires { Sizes p n m (length ws.old) × ((g.state.runs ≤ 8200) × Holds p (columns_in n m ws.old) gram.old g) }
    ensures { (result.state ≡ Search.linear_step p g.state g.r) × Holds p (columns_in n m ws.new) gram.new result }
{
    if g.columns {
        return take_step(p, ws, gram, n, m, with_state(g, count_runs(g.state, n)));
    }
    form_columns(p, ws, gram, n, m, g)
}

// Iteration k + 1 of a search that goes on. Its run of the decision is counted, and not made: the residuals are known, and the candidate has their length.
pub fn iterate(
    p: CheckedProblem,
    ws: &mut [f64],
    gram: &mut [f64],
    n: usize,
    m: usize,
    k: usize,
    g: Progress,
) -> Progress
    requires { Sizes p n m (length ws.old) × ((k < 40) × ((g.state.runs ≤ 8000) × Holds p (columns_in n m ws.old) gram.old g)) }
    ensures { (result.state ≡ Search.iterate p k g.state) × Holds p (columns_in n m ws.new) gram.new result }
{
    let s = begin_iteration(k, g.state);
    if s.candidate.residual <= DEFECT_TOL {
        return with_state(g, with_status(s, Status::Ended));
    }
    linear_step(p, ws, gram, n, m, with_state(g, s))
}
