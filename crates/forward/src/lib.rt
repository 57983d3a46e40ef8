// The forward run: a decision is run through the step law from the problem's start.
// Carried over from quatopsy-plan/src/scvx.rs (Apache-2.0), changed: a decision is packed in one array, a refusal is a number and a place, the run keeps
// its state in locals and lends the actuators' tables to its steps.
#![tactic(auto)]

ghost use Rattle.std.specs.Prelude.{◌≡◌};
ghost use Rattle.forward.specs.Reconstruct as Reconstruct;

use common::{Decision, MAX_CONTROLS, Refusal, SOLVER_NODES};
use control_rows::{Rig, WheelLaw};
use geom::Quat;
use problem::{Checked, Problem, check, refused};

pub mod decisions;
pub mod rows;
pub mod runs;
pub mod steps;

// A run's state: attitude, rate, body momentum, the wheels' momenta, the gimbals' angles.
#[derive(Clone, Copy)]
pub struct BodyState {
    pub q: Quat,
    pub w: [f64; 3],
    pub h: [f64; 3],
    pub hw: [f64; 8],
    pub delta: [f64; 4],
}

// What no step changes, apart from the actuators: inertia, its inverse, the norm tolerance, the time of a step.
#[derive(Clone, Copy)]
pub struct Frame {
    pub j: [f64; 9],
    pub jinv: [f64; 9],
    pub tolerance: f64,
    pub dt: f64,
}

// What no step of a run changes: the actuators' counts, pyramid and tables, the law of the wheels' torque, and the frame.
#[derive(Clone, Copy)]
pub struct Body {
    pub rig: Rig,
    pub wheels: [f64; 24],
    pub powers: [Option<f64>; 8],
    pub thrusters: [f64; 36],
    pub frame: Frame,
}

// The gimbals after a step, with the pyramid's matrix there.
#[derive(Clone, Copy)]
pub struct GimbalStep {
    pub delta: [f64; 4],
    pub a: [f64; 12],
}

// One step: how it ended, the state after it, the torque over it, its defect.
#[derive(Clone, Copy)]
pub struct Stepped {
    pub fate: Result<(), Refusal>,
    pub s: BodyState,
    pub tau: [f64; 3],
    pub defect: f64,
}

// What a step gives but for the attitude, on which no rate waits: how it ends where the attitude is not refused, the torque, the defect squared, the turn,
// the state at its end (with any attitude), the pyramid's matrix there.
#[derive(Clone, Copy)]
pub struct Dynamics {
    pub fate: Result<(), Refusal>,
    pub tau: [f64; 3],
    pub square: f64,
    pub turn: [f64; 3],
    pub s: BodyState,
    pub a: [f64; 12],
}

// The sine and the cosine of a pyramid's skew, made once a run; zeros with no pyramid.
#[derive(Clone, Copy)]
pub struct Skew {
    pub sine: f64,
    pub cosine: f64,
}

// What is known of a pyramid's angles: the skew's sine and cosine, and a table of gimbal angles with theirs.
#[derive(Clone, Copy)]
pub struct Angles<'a> {
    pub skew: Skew,
    pub lut: &'a [f64],
}

// What a run makes once: the skew's sine and cosine, and the pyramid's matrix at the start.
#[derive(Clone, Copy)]
pub struct GimbalStart {
    pub skew: Skew,
    pub a: [f64; 12],
}

// A node of a path: time, attitude, rate, torque, body momentum, the wheels' momenta.
#[derive(Clone, Copy)]
pub struct Node {
    pub t: f64,
    pub q: Quat,
    pub w: [f64; 3],
    pub tau: [f64; 3],
    pub h: [f64; 3],
    pub hw: [f64; 8],
}

// A forward run: how it ended, the largest defect, the 17 nodes (blank where it was refused).
#[derive(Clone, Copy)]
pub struct Run {
    pub fate: Result<(), Refusal>,
    pub defect: f64,
    pub nodes: [Node; SOLVER_NODES],
}

// A run after some of its steps, all of which went on: the state, the pyramid's matrix there, the largest defect squared. Its nodes are lent beside it.
#[derive(Clone, Copy)]
pub struct Partway {
    pub s: BodyState,
    pub a: [f64; 12],
    pub square: f64,
}

// Some steps of a run: how they ended, and the run after them where they went on.
#[derive(Clone, Copy)]
pub struct Went {
    pub fate: Result<(), Refusal>,
    pub at: Partway,
}

// What `reconstruct` answers: the forward runs begun, 0 or 1, and the run.
#[derive(Clone, Copy)]
pub struct Reconstructed {
    pub runs: usize,
    pub run: Run,
}

// Checks 1 to 6 and 22, and that a row has at most 12 controls: no actuators with more are served, and 16 such rows would not fit a packed decision.
pub fn admit(p: Problem) -> Checked
    ensures { result ≡ Reconstruct.admit p }
{
    let checked = check(p);
    let problem = checked.problem;
    let map = problem.map;
    if actuators::control_dim(map) > MAX_CONTROLS {
        return refused(8, 0);
    }
    checked
}

// The step law on a problem as a user gives it and any decision: the checks, then one forward run.
pub fn reconstruct(p: Problem, z: Decision) -> Reconstructed
    ensures { result ≡ Reconstruct.reconstruct p z }
{
    reconstruct_under(WheelLaw::Once, p, z)
}

// The same under a law of the wheels' torque: the comparison with the unaltered Rust asks for the published one.
pub fn reconstruct_under(law: WheelLaw, p: Problem, z: Decision) -> Reconstructed
    ensures { result ≡ Reconstruct.reconstruct_under law p z }
{
    let checked = admit(p);
    let fate = checked.fate;
    match fate {
        Err(Refusal { number, place }) => Reconstructed {
            runs: 0,
            run: runs::refused_run(number, place),
        },
        Ok(()) => {
            let problem = checked.problem;
            Reconstructed {
                runs: 1,
                run: runs::run_under(law, problem, z),
            }
        }
    }
}
