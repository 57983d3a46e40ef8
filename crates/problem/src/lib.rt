// The problem as a user gives it, checks 1 to 6 and 22 in their order, and the checked problem that every forward run reads.
// Carried over from quatopsy-plan/src/scvx.rs (`SolverProblem`, `Weights`) and src/lib.rs (the checks of `plan`), Apache-2.0, changed: one record for
// all inputs, the two tolerances and the wheels' start momenta as fields, refusals as numbers, both attitudes normalized and the inertia inverted once.
#![tactic(auto)]

ghost use Rattle.std.specs.Prelude.{◌≡◌};
ghost use Rattle.problem.specs.Problems as Problems;

use actuators::{ActuatorMap, Actuators, blank_map, prepare};
use common::Refusal;
use float::is_finite;
use geom::{Quat, invert_spd, is_positive, tensor};

pub mod starts;

// The six weights of the search's residuals.
#[derive(Clone, Copy)]
pub struct Weights {
    pub time: f64,
    pub control: f64,
    pub energy: f64,
    pub pointing: f64,
    pub smoothness: f64,
    pub momentum: f64,
}

// The momenta of `count` wheels, in N m s, in the order in which the wheels are declared.
#[derive(Clone, Copy)]
pub struct Momenta {
    pub count: usize,
    pub at: [f64; 8],
}

// A rest-to-rest slew: from q0 to qf, with the body, its limits, the weights, the two tolerances, the actuators and the momenta that the wheels start with.
#[derive(Clone, Copy)]
pub struct Problem {
    pub q0: Quat,
    pub qf: Quat,
    pub inertia: [f64; 9],
    pub torque_limit: [f64; 3],
    pub slew: Option<f64>,
    pub weights: Weights,
    pub norm_tolerance: f64,
    pub tie_tolerance: f64,
    pub actuators: Actuators,
    pub momenta: Momenta,
}

// A problem that passed the checks: both attitudes normalized once, the inertia's inverse, the actuators' tables, the wheels' start momenta with +0 past them.
#[derive(Clone, Copy)]
pub struct CheckedProblem {
    pub q0: Quat,
    pub qf: Quat,
    pub inertia: [f64; 9],
    pub inverse: [f64; 9],
    pub torque_limit: [f64; 3],
    pub slew: Option<f64>,
    pub weights: Weights,
    pub norm_tolerance: f64,
    pub tie_tolerance: f64,
    pub map: ActuatorMap,
    pub momenta: [f64; 8],
}

// What the checks answer; the problem is blank where one refuses.
#[derive(Clone, Copy)]
pub struct Checked {
    pub fate: Result<(), Refusal>,
    pub problem: CheckedProblem,
}

// Whether an optional limit is absent, or finite and above 0.
pub fn limit_fits(limit: Option<f64>) -> bool
    ensures { result ≡ Problems.limit_fits limit }
{
    match limit {
        None => true,
        Some(x) => is_positive(x),
    }
}

// Whether a weight is finite and not below 0.
pub fn weight_fits(x: f64) -> bool
    ensures { result ≡ Problems.weight_fits x }
{
    is_finite(x) & !(x < 0.0)
}

// Whether every weight is finite and not below 0.
pub fn weights_fit(w: Weights) -> bool
    ensures { result ≡ Problems.weights_fit w }
{
    weight_fits(w.time)
        & weight_fits(w.control)
        & weight_fits(w.energy)
        & weight_fits(w.pointing)
        & weight_fits(w.smoothness)
        & weight_fits(w.momentum)
}

// Whether a tolerance is above 0 and below 1.
pub fn tolerance_fits(x: f64) -> bool
    ensures { result ≡ Problems.tolerance_fits x }
{
    (x > 0.0) & (x < 1.0)
}

// Whether the torque limits are finite and above 0.
pub fn limits_fit(limit: [f64; 3]) -> bool
    ensures { result ≡ Problems.limits_fit limit }
{
    is_positive(limit[0]) & is_positive(limit[1]) & is_positive(limit[2])
}

// Check 4: the torque limits, the slew limit, the weights and the tolerances.
pub fn numbers_fit(p: Problem) -> bool
    ensures { result ≡ Problems.numbers_fit p }
{
    let limit = p.torque_limit;
    let slew = p.slew;
    let weights = p.weights;
    limits_fit(limit)
        & limit_fits(slew)
        & weights_fit(weights)
        & tolerance_fits(p.norm_tolerance)
        & tolerance_fits(p.tie_tolerance)
}

// The problem of a refused check: zeros and no actuators.
pub fn blank_problem() -> CheckedProblem
    ensures { result ≡ Problems.blank_problem }
{
    CheckedProblem {
        q0: Quat {
            w: 0.0,
            x: 0.0,
            y: 0.0,
            z: 0.0,
        },
        qf: Quat {
            w: 0.0,
            x: 0.0,
            y: 0.0,
            z: 0.0,
        },
        inertia: [0.0; 9],
        inverse: [0.0; 9],
        torque_limit: [0.0; 3],
        slew: None,
        weights: Weights {
            time: 0.0,
            control: 0.0,
            energy: 0.0,
            pointing: 0.0,
            smoothness: 0.0,
            momentum: 0.0,
        },
        norm_tolerance: 0.0,
        tie_tolerance: 0.0,
        map: blank_map(),
        momenta: [0.0; 8],
    }
}

// A refusal with its number and place.
pub fn refused(number: usize, place: usize) -> Checked
    ensures { result ≡ Problems.refused number place }
{
    Checked {
        fate: Err(Refusal { number, place }),
        problem: blank_problem(),
    }
}

// Check 6 at place 0, and the checked problem.
pub fn with_attitudes(p: Problem, map: ActuatorMap, q0: Quat, qf: Quat) -> Checked
    ensures { result ≡ Problems.with_attitudes p map q0 qf }
{
    let inertia = p.inertia;
    let torque_limit = p.torque_limit;
    match invert_spd(tensor(inertia)) {
        Err(_) => refused(6, 0),
        Ok(inverse) => {
            let momenta = starts::placed(map.wheel_count, p.momenta.at);
            let problem = CheckedProblem {
                q0,
                qf,
                inertia,
                inverse,
                torque_limit,
                slew: p.slew,
                weights: p.weights,
                norm_tolerance: p.norm_tolerance,
                tie_tolerance: p.tie_tolerance,
                map,
                momenta,
            };
            Checked {
                fate: Ok(()),
                problem,
            }
        }
    }
}

// Check 5, with the actuators prepared and the wheels' starts in their limits.
pub fn with_starts(p: Problem, map: ActuatorMap) -> Checked
    ensures { result ≡ Problems.with_starts p map }
{
    let start = p.q0;
    let end = p.qf;
    let Some(q0) = start.normalized(p.norm_tolerance) else {
        return refused(5, 0);
    };
    let Some(qf) = end.normalized(p.norm_tolerance) else {
        return refused(5, 1);
    };
    with_attitudes(p, map, q0, qf)
}

// Checks 4 and 22, with the actuators prepared.
pub fn with_map(p: Problem, map: ActuatorMap) -> Checked
    ensures { result ≡ Problems.with_map p map }
{
    if !numbers_fit(p) {
        return refused(4, 0);
    }
    let limits = map.wheel_momenta;
    let momenta = p.momenta;
    let fate = starts::check_starts(map.wheel_count, limits, momenta);
    match fate {
        Err(refusal) => refused(refusal.number, refusal.place),
        Ok(()) => with_starts(p, map),
    }
}

// Checks 1 to 6 in the specification's order, and 22 after 4.
pub fn check(p: Problem) -> Checked
    ensures { result ≡ Problems.check p }
{
    match prepare(p.actuators) {
        Err(refusal) => refused(refusal.number, refusal.place),
        Ok(map) => with_map(p, map),
    }
}
