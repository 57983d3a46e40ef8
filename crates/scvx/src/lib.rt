// The search: a seed's decision is bettered by Levenberg-Marquardt steps over forward runs, on one lent workspace.
// Carried over from `solve` and `jacobian` of quatopsy-plan/src/scvx.rs (Apache-2.0), changed: no heap, runs are counted, a refusal is a number and a place.
// What the Rust works out again is kept: a decision's residuals and their length are known from the run that let it in, and while a decision stays its
// Jacobian's columns stay in the front of the workspace, and their Gram matrix beside it. A column's run begins where it parts from the base run's. Iterations that
// would repeat the last one to the end are not made. The counts are the Rust's.
#![tactic(auto)]

ghost use Rattle.std.specs.Prelude.{◌≡◌, true, ◌≤◌, length};
ghost use Rattle.actuators.specs.Maps.{control_dim, is_sized};
ghost use Rattle.scvx.specs.Search as Search;

use self::columns::{numbers, width};
use self::turns::{conclude, not_found, start, turns};
use common::{Decision, Refusal, ResidualNumbers};
use forward::Run;
use problem::CheckedProblem;
use residuals::terms::residuals_of;

pub mod columns;
pub mod states;
pub mod steps;
pub mod turns;

// The most iterations of a search, and the most of its damping factor.
pub const MAX_ITERS: usize = 40;

pub const LM_LAMBDA_MAX: f64 = 1.0e6;

// How the search stands: on its way, ended at a length of at most 0.005, or refused.
#[derive(Clone, Copy)]
pub enum Status {
    Going,
    Ended,
    Refused(Refusal),
}

// A decision with its residual length, and the projection that made it: the seed's, or a trial's with how many of its 16 controls it held at each place of a row
// (zeros for the seed's, whose counts stand beside it).
#[derive(Clone, Copy)]
pub struct Candidate {
    pub z: Decision,
    pub residual: f64,
    pub tried: bool,
    pub held: [usize; 12],
}

// The search after some iterations: the decision that it stands at, the damping factor, the iterations and the forward runs begun.
#[derive(Clone, Copy)]
pub struct SearchState {
    pub candidate: Candidate,
    pub lambda: f64,
    pub iterations: usize,
    pub runs: usize,
    pub status: Status,
}

// A state with what is kept beside it: the residuals of its decision, and whether the columns of its Jacobian stand in the front of the workspace, with their Gram
// matrix beside it.
#[derive(Clone, Copy)]
pub struct Progress {
    pub state: SearchState,
    pub r: ResidualNumbers,
    pub columns: bool,
}

// A column's run was refused: why, and the columns' runs begun.
#[derive(Clone, Copy)]
pub struct BrokenColumn {
    pub why: Refusal,
    pub runs: usize,
}

// A trial's decision, and how many of its 16 controls at each place of a row were held to their limits.
#[derive(Clone, Copy)]
pub struct Trial {
    pub z: Decision,
    pub held: [usize; 12],
}

// What the search answers: how it ended, the forward runs begun, and of a decision that was found its iterations, the decision and its run (blank where refused),
// whether a trial made it, and then that trial's counts of held controls.
#[derive(Clone, Copy)]
pub struct Found {
    pub fate: Result<(), Refusal>,
    pub runs: usize,
    pub iterations: usize,
    pub z: Decision,
    pub run: Run,
    pub tried: bool,
    pub held: [usize; 12],
}

// The numbers that the lent workspace needs.
pub fn room(p: CheckedProblem) -> usize
    requires { control_dim p.map ≤ 12 }
    ensures { result ≡ Search.room p }
{
    let n = numbers(p);
    let m = width(p);
    n * (n + m + 6) + 4 * m
}

// The search from a seed's decision. What it leaves in the workspace is free.
pub fn search(p: CheckedProblem, seed: Decision, ws: &mut [f64]) -> Found
    requires { (is_sized p.map ≡ true) × (control_dim p.map ≤ 12) × (Search.room p ≤ length ws.old) }
    ensures { (result ≡ Search.search p seed) × (length ws.new ≡ length ws.old) }
{
    let e = residuals_of(p, seed);
    match e.fate {
        Err(why) => not_found(why, 1),
        Ok(()) => {
            let n = numbers(p);
            let m = width(p);
            conclude(p, turns(p, ws, n, m, start(m, seed, e.r)))
        }
    }
}
