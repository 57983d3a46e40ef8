// The whole search: its start, at most 40 iterations, and the run of the decision that is handed out. Carried over from `solve` of
// quatopsy-plan/src/scvx.rs (Apache-2.0), changed: runs are counted, a refusal is a number and a place, iterations that would repeat the last one are counted alone.
ghost use Rattle.std.specs.Prelude.{◌≡◌, true, false, ◌≤◌, length};
ghost use Rattle.common.specs.Iter.{iter};
ghost use Rattle.actuators.specs.Maps.{control_dim, is_sized};
ghost use Rattle.scvx.specs.declared.Status.TheVariants.{Going};
ghost use Rattle.scvx.specs.Search as Search;
ghost use Rattle.scvx.specs.ProgressInner as ProgressInner;
ghost use Rattle.scvx.specs.ProgressInner.{Sizes, Known};

use super::states::{repeat_last, seed_candidate};
use super::steps::iterate;
use super::{Found, LM_LAMBDA_MAX, MAX_ITERS, Progress, SearchState, Status};
use common::{DECISION_NUMBERS, Decision, Refusal, ResidualNumbers};
use float_bits::same_bits;
use forward::runs::{refused_run, run_of};
use problem::CheckedProblem;

// The damping factor at the start.
const LM_LAMBDA0: f64 = 1.0e-2;

// The numbers of the Gram matrix that is kept: of 65 columns, those of 4 controls.
const GRAM_NUMBERS: usize = 4225;

// The seed's decision, whose residuals r are known: one run.
pub fn start(m: usize, seed: Decision, r: ResidualNumbers) -> Progress
    requires { m ≤ 79 }
    ensures { result ≡ ProgressInner.start m seed r }
{
    Progress {
        state: SearchState {
            candidate: seed_candidate(seed, r, m),
            lambda: LM_LAMBDA0,
            iterations: 0,
            runs: 1,
            status: Status::Going,
        },
        r,
        columns: false,
    }
}

// Whether the damping was the strongest before an iteration and after it: then its trial was not taken, and every iteration after it is the same.
fn is_settled(before: f64, after: f64) -> bool
    ensures { result ≡ true → (before ≡ Search.strongest) × (after ≡ Search.strongest) }
{
    same_bits(before, LM_LAMBDA_MAX) & same_bits(after, LM_LAMBDA_MAX)
}

// At most 40 iterations, left where the search no longer goes on, or where those that are left would repeat the last one: their runs are counted, and not made.
// While a decision stays, so does the Gram matrix of its columns, if they are at most 65; more are summed in each iteration.
pub fn turns(p: CheckedProblem, ws: &mut [f64], n: usize, m: usize, first: Progress) -> SearchState
    requires { Sizes p n m (length ws.old)
        × ((first.state.runs ≡ 1) × ((first.state.status ≡ Going) × ((first.columns ≡ false) × Known p first.state.candidate first.r))) }
    ensures { result ≡ iter (Search.turn p) first.state 40 }
{
    let mut gram = [0.0; GRAM_NUMBERS];
    let mut g = first;
    for k in 0..MAX_ITERS {
        let before = g.state;
        g = iterate(p, ws, &mut gram, n, m, k, g);
        let s = g.state;
        match s.status {
            Status::Ended => return s,
            Status::Refused(_) => return s,
            Status::Going => {}
        }
        if is_settled(before.lambda, s.lambda) {
            return repeat_last(s, k + 1, s.runs - before.runs);
        }
    }
    g.state
}

// A refusal: no decision.
pub fn not_found(why: Refusal, runs: usize) -> Found
    ensures { result ≡ Search.not_found why runs }
{
    Found {
        fate: Err(why),
        runs,
        iterations: 0,
        z: [0.0; DECISION_NUMBERS],
        run: refused_run(why.number, why.place),
        tried: false,
        held: [0; 12],
    }
}

// The run of the decision that is handed out, the last that is counted.
fn final_run(p: CheckedProblem, s: SearchState) -> Found
    requires { (is_sized p.map ≡ true) × ((control_dim p.map ≤ 12) × (s.runs ≤ 8500)) }
    ensures { result ≡ Search.final_run p s }
{
    let c = s.candidate;
    let z = c.z;
    let held = c.held;
    let run = run_of(p, z);
    match run.fate {
        Err(why) => not_found(why, s.runs + 1),
        Ok(()) => Found {
            fate: Ok(()),
            runs: s.runs + 1,
            iterations: s.iterations,
            z,
            run,
            tried: c.tried,
            held,
        },
    }
}

// What is found, by how the search ended.
pub fn conclude(p: CheckedProblem, s: SearchState) -> Found
    requires { (is_sized p.map ≡ true) × ((control_dim p.map ≤ 12) × (s.runs ≤ 8500)) }
    ensures { result ≡ Search.conclude p s }
{
    match s.status {
        Status::Going => final_run(p, s),
        Status::Ended => final_run(p, s),
        Status::Refused(why) => not_found(why, s.runs),
    }
}
