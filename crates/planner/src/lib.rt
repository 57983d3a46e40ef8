// The planner: every check in the specification's order, the seed, the search, the end checks, and the two entries, with our seed and with a caller's.
// Carried over from `solve` of quatopsy-plan/src/scvx.rs (Apache-2.0), changed: one lent workspace, every answer with its runs, refusals as numbers.
#![tactic(auto)]

ghost use Rattle.std.specs.Prelude.{◌≡◌, Bool, true, ◌≤◌, length, replicate};
ghost use Rattle.common.specs.Floats.{plus_zero};
ghost use Rattle.common.specs.Refusals.{refusal};
ghost use Rattle.actuators.specs.Maps.{is_sized, control_dim};
ghost use Rattle.scvx.specs.Search as Search;
ghost use Rattle.planner.specs.Plans as Plans;
ghost use Rattle.planner.specs.Outcomes.{Outcome};
ghost use Rattle.planner.specs.Promises as Promises;
ghost use Rattle.search_laws.specs.Fits.{Fit};
ghost use Rattle.problem.specs.Problems as Problems;

use actuators::control_dim;
use common::{DECISION_NUMBERS, Decision, Refusal, SOLVER_NODES};
use end_checks::end_checks;
use forward::Node;
use forward::runs::blank_node;
use geom::is_positive;
use normal_equations::clear;
use problem::{CheckedProblem, Problem, check};
use profile::{Profiled, Seed, bang_coast_bang, sample_seed};
use scvx::{Found, room, search};
use seeds::{seed_decision, served};

// An answered path: its duration, controls of a row, wheels, iterations, the largest defect of its run, the decision (past its numbers stands +0), the 17
// nodes, and for each place of a row how many of its 16 controls were held to their limit in the projection that made the decision (0 past the controls). All
// zeros beside a refusal.
#[derive(Clone, Copy)]
pub struct Path {
    pub duration: f64,
    pub controls: usize,
    pub wheels: usize,
    pub iterations: usize,
    pub max_defect: f64,
    pub z: Decision,
    pub nodes: [Node; SOLVER_NODES],
    pub held: [usize; 12],
}

// What an entry answers: how it ended, the forward runs begun, the path.
#[derive(Clone, Copy)]
pub struct Planned {
    pub fate: Result<(), Refusal>,
    pub runs: usize,
    pub path: Path,
}

// No path, beside a refusal and its runs.
pub fn refused(why: Refusal, runs: usize) -> Planned
    ensures { result ≡ Plans.refused why runs }
{
    let path = Path {
        duration: 0.0,
        controls: 0,
        wheels: 0,
        iterations: 0,
        max_defect: 0.0,
        z: [0.0; DECISION_NUMBERS],
        nodes: [blank_node(); SOLVER_NODES],
        held: [0; 12],
    };
    Planned {
        fate: Err(why),
        runs,
        path,
    }
}

// The refusal with this number, at place 0, before any run.
fn refused_before(number: usize) -> Planned
    ensures { result ≡ Plans.refused (refusal number 0) 0 }
{
    refused(Refusal { number, place: 0 }, 0)
}

// The counts of held controls: those of the trial that made the decision, or the seed's.
fn held_of(found: Found, held: [usize; 12]) -> [usize; 12]
    ensures { result ≡ Plans.held_of found held }
{
    if found.tried { found.held } else { held }
}

// The path of what was found from a seed with these counts of held controls.
fn path_of(p: CheckedProblem, found: Found, held: [usize; 12]) -> Path
    ensures { result ≡ Plans.path_of p found held }
{
    let z = found.z;
    let nodes = found.run.nodes;
    Path {
        duration: z[0],
        controls: control_dim(p.map),
        wheels: p.map.wheel_count,
        iterations: found.iterations,
        max_defect: found.run.defect,
        z,
        nodes,
        held: held_of(found, held),
    }
}

// The end checks of a decision that was found.
fn check_end(p: CheckedProblem, found: Found, held: [usize; 12]) -> Planned
    requires { is_sized p.map ≡ true }
    ensures { result ≡ Plans.found_by (Ok tt) p found held }
{
    match end_checks(p, found.run) {
        Err(why) => refused(why, found.runs),
        Ok(()) => Planned {
            fate: Ok(()),
            runs: found.runs,
            path: path_of(p, found, held),
        },
    }
}

// The answer to what the search found.
fn answered(p: CheckedProblem, found: Found, held: [usize; 12]) -> Planned
    requires { is_sized p.map ≡ true }
    ensures { result ≡ Plans.answered p found held }
{
    match found.fate {
        Err(why) => refused(why, found.runs),
        Ok(()) => check_end(p, found, held),
    }
}

// The search from a seed's decision, the workspace cleared after it, and the answer.
fn solve(p: CheckedProblem, seed: Decision, held: [usize; 12], ws: &mut [f64]) -> Planned
    requires { (is_sized p.map ≡ true) × ((control_dim p.map ≤ 12) × (Search.room p ≤ length ws.old)) }
    ensures { (result ≡ Plans.answered p (Search.search p seed) held) × ((ws.new ≡ replicate (length ws.old) plus_zero) × Fit seed) }
{
    let found = search(p, seed, ws);
    clear(ws);
    answered(p, found, held)
}

// The seed's count and duration and the workspace's size, then the seed's decision.
fn seeded(
    p: CheckedProblem,
    counted: bool,
    duration: f64,
    torques: &[f64],
    ws: &mut [f64],
) -> Planned
    requires { (is_sized p.map ≡ true) × ((control_dim p.map ≤ 12) × (counted ≡ true → 48 ≤ length torques.now)) }
    ensures { Outcome (Plans.seeded p counted duration torques.now (length ws.old)) ws.old
        (Plans.seed_of p duration torques.now) result ws.new }
{
    if !counted {
        return refused_before(10);
    }
    if !is_positive(duration) {
        return refused_before(10);
    }
    if ws.len() < room(p) {
        return refused_before(9);
    }
    let seed = seed_decision(p.map, p.torque_limit, duration, torques);
    solve(p, seed.z, seed.held, ws)
}

// Whether the actuators are served, then the seed.
fn with_seed(
    p: CheckedProblem,
    counted: bool,
    duration: f64,
    torques: &[f64],
    ws: &mut [f64],
) -> Planned
    requires { (is_sized p.map ≡ true) × (counted ≡ true → 48 ≤ length torques.now) }
    ensures { Outcome (Plans.with_seed p counted duration torques.now (length ws.old)) ws.old
        (Plans.seed_of p duration torques.now) result ws.new }
{
    match served(p.map) {
        Err(why) => refused(why, 0),
        Ok(()) => seeded(p, counted, duration, torques, ws),
    }
}

// Whether a caller's seed has 17 nodes, three numbers a node.
fn counted(rates: &[f64], torques: &[f64]) -> bool
    ensures { result ≡ Plans.counted rates.now torques.now }
{
    if rates.len() != 51 {
        return false;
    }
    torques.len() == 51
}

// The profile's seed.
fn with_profile_seed(p: CheckedProblem, seed: Seed, ws: &mut [f64]) -> Planned
    requires { is_sized p.map ≡ true }
    ensures { Outcome (Plans.seeded_by p seed (length ws.old)) ws.old (Plans.seed_of p seed.duration seed.torques) result
        ws.new }
{
    with_seed(p, true, seed.duration, &seed.torques, ws)
}

// The profile of a checked problem.
pub fn profiled(p: CheckedProblem) -> Profiled
    ensures { result ≡ Plans.profiled p }
{
    bang_coast_bang(
        p.q0,
        p.qf,
        geom::tensor(p.inertia),
        p.torque_limit,
        p.slew,
        p.tie_tolerance,
    )
}

// The profile, then its seed.
fn with_profile(p: CheckedProblem, ws: &mut [f64]) -> Planned
    requires { is_sized p.map ≡ true }
    ensures { Outcome (Plans.with_profile p (length ws.old)) ws.old (Promises.own_seed p) result ws.new }
{
    let made = profiled(p);
    match made.fate {
        Err(why) => refused(why, 0),
        Ok(()) => with_profile_seed(p, sample_seed(made.profile), ws),
    }
}

// The plan of a problem from our own seed, on a lent workspace.
pub fn plan(p: Problem, ws: &mut [f64]) -> Planned
    ensures { (result ≡ Plans.plan p (length ws.old))
        × ((ws.new ≡ Plans.leaves result.runs ws.old)
        × Promises.Answers p (Promises.own_seed (Problems.check p).problem) result) }
{
    let checked = check(p);
    match checked.fate {
        Err(why) => refused(why, 0),
        Ok(()) => with_profile(checked.problem, ws),
    }
}

// The plan of a problem from a caller's seed: a duration, 17 rates and 17 torques, three numbers a node.
pub fn plan_from(
    p: Problem,
    duration: f64,
    rates: &[f64],
    torques: &[f64],
    ws: &mut [f64],
) -> Planned
    ensures { (result ≡ Plans.plan_from p duration rates.now torques.now (length ws.old))
        × ((ws.new ≡ Plans.leaves result.runs ws.old)
        × Promises.Answers p (Plans.seed_of (Problems.check p).problem duration torques.now) result) }
{
    let checked = check(p);
    match checked.fate {
        Err(why) => refused(why, 0),
        Ok(()) => with_seed(
            checked.problem,
            counted(rates, torques),
            duration,
            torques,
            ws,
        ),
    }
}
