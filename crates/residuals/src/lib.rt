// The residuals of a decision: one forward run, and what the search drives to 0.
// Carried over from `residuals` of quatopsy-plan/src/scvx.rs (Apache-2.0), changed: the residuals stand in an array of 79, a refusal is a number and a place.
#![tactic(auto)]

ghost use Rattle.std.specs.Prelude.{◌≡◌};
ghost use Rattle.residuals.specs.MeasuredResiduals as MeasuredResiduals;

use common::{Decision, Refusal, ResidualNumbers};
use forward::admit;
use geom::Quat;
use problem::{Problem, Weights};

pub mod sums;
pub mod terms;

// What the residuals read of a problem: the final attitude, the weights, the controls of a row, the wheels.
#[derive(Clone, Copy)]
pub struct Target {
    pub qf: Quat,
    pub weights: Weights,
    pub controls: usize,
    pub wheels: usize,
}

// Residuals: the first `count` numbers of r; none where the run or a logarithm is refused.
#[derive(Clone, Copy)]
pub struct ResidualVector {
    pub fate: Result<(), Refusal>,
    pub count: usize,
    pub r: ResidualNumbers,
}

// Sums of a run's first steps: energy over these steps, smoothness over the changes between their nodes.
#[derive(Clone, Copy)]
pub struct Begun {
    pub energy: f64,
    pub smooth: f64,
}

// What `residuals` answers: the forward runs begun, 0 or 1, and the residuals.
#[derive(Clone, Copy)]
pub struct Measured {
    pub runs: usize,
    pub residuals: ResidualVector,
}

// The residuals of a decision on a problem as a user gives it: the checks, then one forward run.
pub fn residuals(p: Problem, z: Decision) -> Measured
    ensures { result ≡ MeasuredResiduals.residuals p z }
{
    let checked = admit(p);
    let fate = checked.fate;
    match fate {
        Err(refusal) => Measured {
            runs: 0,
            residuals: terms::refused_residuals(refusal.number, refusal.place),
        },
        Ok(()) => {
            let problem = checked.problem;
            Measured {
                runs: 1,
                residuals: terms::residuals_of(problem, z),
            }
        }
    }
}
