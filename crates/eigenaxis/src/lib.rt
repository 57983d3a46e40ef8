// Eigenaxis plans: the planner's own answer from the eigenaxis seed, at the shortest duration that a ladder of durations finds. The weights are not read: the search
// ends where the seed lands.
#![tactic(auto)]

ghost use Rattle.std.specs.Prelude.{◌≡◌, ◌≤◌, ◌<◌, length};
ghost use Rattle.common.specs.Iter.{iter};
ghost use Rattle.planner.specs.Plans as Plans;
ghost use Rattle.planner.specs.Promises as Promises;
ghost use Rattle.problem.specs.Problems as Problems;
ghost use Rattle.eigenaxis.specs.Ladders as Ladders;
ghost use Rattle.eigenaxis.specs.Keeps as Keeps;

use eigenaxis_seed::{Seeding, Shape, seed, turn_of};
use planner::{Planned, plan_from};
use problem::{Problem, Weights, check};

// The ladder on its way: whether the climb goes on, the longest duration below that was passed over or refused, the next one of the climb, the duration of the answer
// that stands, the runs of every try so far, and that answer.
#[derive(Clone, Copy)]
pub struct Ladder {
    pub climbing: bool,
    pub low: f64,
    pub next: f64,
    pub at: f64,
    pub runs: usize,
    pub planned: Planned,
}

// What `plan_eigenaxis` answers: the seed's duration, the runs of every try, the planner's answer at that duration.
#[derive(Clone, Copy)]
pub struct Eigenaxis {
    pub at: f64,
    pub runs: usize,
    pub planned: Planned,
}

// The problem with its weights at 0.
pub fn unweighted(p: Problem) -> Problem
    ensures { result ≡ Ladders.unweighted p }
{
    let q0 = p.q0;
    let qf = p.qf;
    let inertia = p.inertia;
    let torque_limit = p.torque_limit;
    let slew = p.slew;
    let actuators = p.actuators;
    let momenta = p.momenta;
    let weights = Weights {
        time: 0.0,
        control: 0.0,
        energy: 0.0,
        pointing: 0.0,
        smoothness: 0.0,
        momentum: 0.0,
    };
    Problem {
        q0: q0,
        qf: qf,
        inertia: inertia,
        torque_limit: torque_limit,
        slew: slew,
        weights: weights,
        norm_tolerance: p.norm_tolerance,
        tie_tolerance: p.tie_tolerance,
        actuators: actuators,
        momenta: momenta,
    }
}

// The seed of a duration.
fn seed_at(q: Problem, shape: Shape, t: f64) -> Seeding
    ensures { result ≡ Ladders.seed_at q shape t }
{
    let checked = check(q);
    let c = checked.problem;
    let phi = turn_of(c);
    seed(c, shape, phi, t)
}

// The planner's answer from a seed.
fn tried(q: Problem, t: f64, s: Seeding, ws: &mut [f64]) -> Planned
    ensures { ((result ≡ Ladders.tried q (length ws.old) t s) × (result.runs ≤ 7802))
        × ((ws.new ≡ Plans.leaves result.runs ws.old)
        × Promises.Answers q (Plans.seed_of (Problems.check q).problem t s.torques) result) }
{
    let rates = s.rates;
    let torques = s.torques;
    plan_from(q, t, &rates, &torques, ws)
}

// The duration t was passed over or refused after so many runs: the answer that stands stays.
fn passed(s: Ladder, t: f64, runs: usize) -> Ladder
    requires { (s.runs ≤ 1000000) × (runs ≤ 7802) }
    ensures { result ≡ Ladders.passed s t runs }
{
    let planned = s.planned;
    Ladder {
        climbing: s.climbing,
        low: t,
        next: 2.0 * t,
        at: s.at,
        runs: s.runs + runs,
        planned: planned,
    }
}

// The duration t was answered.
fn reached(s: Ladder, t: f64, planned: Planned) -> Ladder
    requires { (s.runs ≤ 1000000) × (planned.runs ≤ 7802) }
    ensures { result ≡ Ladders.reached s t planned }
{
    Ladder {
        climbing: false,
        low: s.low,
        next: s.next,
        at: t,
        runs: s.runs + planned.runs,
        planned: planned,
    }
}

// One try, at the duration t.
fn rung(q: Problem, shape: Shape, s: Ladder, t: f64, ws: &mut [f64]) -> Ladder
    requires { s.runs ≤ 1000000 }
    ensures { (result ≡ Ladders.rung q shape (length ws.old) s t) × Keeps.Keeps q shape s result ws.old ws.new }
{
    let seeding = seed_at(q, shape, t);
    if !seeding.fits {
        return passed(s, t, 0);
    }
    let planned = tried(q, t, seeding, ws);
    let fate = planned.fate;
    match fate {
        Err(_) => passed(s, t, planned.runs),
        Ok(()) => reached(s, t, planned),
    }
}

// A turn of the climb.
fn climb_turn(q: Problem, shape: Shape, s: Ladder, ws: &mut [f64]) -> Ladder
    requires { s.runs ≤ 1000000 }
    ensures { (result ≡ Ladders.climb_turn q shape (length ws.old) 0 s) × Keeps.Keeps q shape s result ws.old ws.new }
{
    if !s.climbing {
        return s;
    }
    rung(q, shape, s, s.next, ws)
}

// The climb: 20 durations, each twice the one before, until one is answered.
fn climb(q: Problem, shape: Shape, first: Ladder, ws: &mut [f64]) -> Ladder
    requires { first.runs ≤ 7802 }
    ensures { (result ≡ iter (Ladders.climb_turn q shape (length ws.old)) first 20)
        × Keeps.Keeps q shape first result ws.old ws.new }
{
    let mut s = first;
    for _ in 0..20usize {
        s = climb_turn(q, shape, s, ws);
    }
    s
}

// Halfway between the duration passed over or refused last and that of the answer.
fn middle(s: Ladder) -> f64
    ensures { result ≡ Ladders.middle s }
{
    0.5 * (s.low + s.at)
}

// A turn of the narrowing: halfway between the duration passed over or refused last and that of the answer.
fn narrow_turn(q: Problem, shape: Shape, s: Ladder, ws: &mut [f64]) -> Ladder
    requires { s.runs ≤ 1000000 }
    ensures { (result ≡ Ladders.narrow_turn q shape (length ws.old) 0 s) × Keeps.Keeps q shape s result ws.old ws.new }
{
    let planned = s.planned;
    let fate = planned.fate;
    match fate {
        Err(_) => s,
        Ok(()) => rung(q, shape, s, middle(s), ws),
    }
}

// The narrowing: 8 turns.
fn narrow(q: Problem, shape: Shape, first: Ladder, ws: &mut [f64]) -> Ladder
    requires { first.runs ≤ 163842 }
    ensures { (result ≡ iter (Ladders.narrow_turn q shape (length ws.old)) first 8)
        × Keeps.Keeps q shape first result ws.old ws.new }
{
    let mut s = first;
    for _ in 0..8usize {
        s = narrow_turn(q, shape, s, ws);
    }
    s
}

// Whether a run was begun.
fn begun(runs: usize) -> bool
    ensures { result ≡ Ladders.begun runs }
{
    if runs == 0 { false } else { true }
}

// The ladder's start: the longest duration, which is always tried.
fn start(q: Problem, shape: Shape, ws: &mut [f64]) -> Ladder
    ensures { (result ≡ Ladders.start q shape (length ws.old)) × ((result.runs ≤ 7802) × Keeps.Begins q shape result ws.old ws.new) }
{
    let seeding = seed_at(q, shape, 1.0e4);
    let planned = tried(q, 1.0e4, seeding, ws);
    Ladder {
        climbing: begun(planned.runs),
        low: 0.0,
        next: 0.0095367431640625,
        at: 1.0e4,
        runs: planned.runs,
        planned: planned,
    }
}

// The planner's answer from the eigenaxis seed of the shortest duration that the ladder finds, with the weights at 0.
pub fn plan_eigenaxis(p: Problem, shape: Shape, ws: &mut [f64]) -> Eigenaxis
    ensures { (result ≡ Ladders.plan_eigenaxis p shape (length ws.old))
        × ((ws.new ≡ Plans.leaves result.runs ws.old)
        × Keeps.Answers p shape result) }
{
    let q = unweighted(p);
    let first = start(q, shape, ws);
    let climbed = climb(q, shape, first, ws);
    let narrowed = narrow(q, shape, climbed, ws);
    let planned = narrowed.planned;
    Eigenaxis {
        at: narrowed.at,
        runs: narrowed.runs,
        planned: planned,
    }
}

// The planner's answer with the runs of every try.
fn counted(e: Eigenaxis) -> Planned
    ensures { result ≡ Ladders.counted e }
{
    let planned = e.planned;
    let fate = planned.fate;
    let path = planned.path;
    Planned {
        fate: fate,
        runs: e.runs,
        path: path,
    }
}

// The eigenaxis plan in the form in which `plan` and `plan_from` answer: its runs are those of every try.
pub fn plan_counted(p: Problem, shape: Shape, ws: &mut [f64]) -> Planned
    ensures value { result ≡ Ladders.counted (Ladders.plan_eigenaxis p shape (length ws.old)) }
    ensures ws_after { ws.new ≡ Plans.leaves result.runs ws.old }
    ensures answers { Keeps.Answers p shape (Ladders.plan_eigenaxis p shape (length ws.old)) }
{
    let e = plan_eigenaxis(p, shape, ws);
    counted(e)
}
