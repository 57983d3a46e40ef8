// A candidate made, and the parts of an iteration that only change a state.
ghost use Rattle.std.specs.Prelude.{◌≡◌, ◌+◌, ◌-◌, ◌*◌, ◌≤◌, ◌<◌};
ghost use Rattle.scvx.specs.Search as Search;
ghost use Rattle.scvx.specs.ProgressInner as ProgressInner;

use super::{Candidate, MAX_ITERS, Progress, SearchState, Status, Trial};
use common::{Decision, ResidualNumbers};
use residuals::sums::norm_slice;

// The seed's decision z, whose residuals are r, of which m count.
pub fn seed_candidate(z: Decision, r: ResidualNumbers, m: usize) -> Candidate
    requires { m ≤ 79 }
    ensures { result ≡ Search.seed_candidate z r m }
{
    Candidate {
        z,
        residual: norm_slice(&r, m),
        tried: false,
        held: [0; 12],
    }
}

// A trial's decision as a candidate.
pub fn trial_candidate(t: Trial, r: ResidualNumbers, m: usize) -> Candidate
    requires { m ≤ 79 }
    ensures { result ≡ Search.trial_candidate t.z r m t.held }
{
    let z = t.z;
    let held = t.held;
    Candidate {
        z,
        residual: norm_slice(&r, m),
        tried: true,
        held,
    }
}

// More runs begun.
pub fn count_runs(s: SearchState, more: usize) -> SearchState
    requires { s.runs + more ≤ 9000 }
    ensures { result ≡ Search.count_runs_value s more }
{
    SearchState {
        runs: s.runs + more,
        ..s
    }
}

// Another status.
pub fn with_status(s: SearchState, status: Status) -> SearchState
    ensures { result ≡ Search.with_status s status }
{
    SearchState { status, ..s }
}

// Another damping factor.
pub fn with_damping(s: SearchState, x: f64) -> SearchState
    ensures { result ≡ Search.with_damping s x }
{
    SearchState { lambda: x, ..s }
}

// The decision of t, with the damping factor x.
pub fn move_to(s: SearchState, t: Candidate, x: f64) -> SearchState
    ensures { result ≡ Search.move_to s t x }
{
    SearchState {
        candidate: t,
        lambda: x,
        ..s
    }
}

// Iteration k + 1 begins, and its run of the decision is counted.
pub fn begin_iteration(k: usize, s: SearchState) -> SearchState
    requires { (k < 40) × (s.runs < 9000) }
    ensures { result ≡ Search.begin_iteration k s }
{
    SearchState {
        iterations: k + 1,
        runs: s.runs + 1,
        ..s
    }
}

// The state after 40 iterations, of which each after the k-th changes the counts alone and begins so many runs.
pub fn repeat_last(s: SearchState, k: usize, more: usize) -> SearchState
    requires { (k ≤ 40) × (s.runs + (40 - k) * more ≤ 9000) }
    ensures { result ≡ ProgressInner.counted s ((40 - k) * more) 40 }
{
    SearchState {
        iterations: MAX_ITERS,
        runs: s.runs + (MAX_ITERS - k) * more,
        ..s
    }
}

// The same decision, residuals and columns with another state of them.
pub fn with_state(g: Progress, s: SearchState) -> Progress
    ensures { result ≡ ProgressInner.with_state g s }
{
    Progress { state: s, ..g }
}
