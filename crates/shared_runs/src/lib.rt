// Runs that share their beginning: a decision whose first rows are another's has its first steps. The base run is kept step by step, and the run of such a decision begins
// where the decisions part. The Rust runs every column of its Jacobian from the start.
#![tactic(auto)]

ghost use Rattle.std.specs.Prelude.{◌≡◌, true, List, ◌+◌, ◌*◌, ◌≤◌, length, Float};
ghost use Rattle.actuators.specs.Maps.{control_dim, is_sized};
ghost use Rattle.gimbal_angles.specs.Known.{KnownOf};
ghost use Rattle.residuals.specs.Residuals.{residuals_of};
ghost use Rattle.shared_runs.specs.Shared.{Agree, Same, Keeps, Holds};

use common::{Decision, Refusal, SOLVER_NODES, STEPS};
use control_rows::WheelLaw;
use float_bits::same_bits;
use forward::runs::{run_on, start, start_gimbals, steps_under, unbegun};
use forward::{Angles, Partway, Skew};
use problem::CheckedProblem;
use residuals::sums::sums_next;
use residuals::terms::{keep_error, of_rows, refused_residuals, residuals_of, target_of};
use residuals::{Begun, ResidualVector};

mod known;

pub use known::know_angles;

// The base run after its first steps, where it is on its way, and the sums of its residuals over them; where not, the rest is free.
#[derive(Clone, Copy)]
pub struct Base {
    pub on: bool,
    pub steps: usize,
    pub skew: Skew,
    pub at: Partway,
    pub sums: Begun,
}

// Whether a stage goes on, and what is known goes with it.
fn goes(fate: Result<(), Refusal>, known: bool) -> bool
    ensures { result ≡ true → (fate ≡ Ok tt) × (known ≡ true) }
{
    match fate {
        Ok(()) => known,
        Err(_) => false,
    }
}

// The base run before its first step: that of every decision.
pub fn base_start(p: CheckedProblem) -> Base
    requires { is_sized p.map ≡ true }
    ensures { (z : List Float) (v errors : List (List Float)) → length v ≡ 17 → Keeps p z result v errors }
{
    let map = p.map;
    let wheels = map.wheel_axes;
    let momenta = p.momenta;
    let from = start(&wheels, map.wheel_count, p.q0, momenta);
    let sums = Begun {
        energy: 0.0,
        smooth: 0.0,
    };
    match start_gimbals(map.cmgs) {
        Err(_) => Base {
            on: false,
            steps: 0,
            skew: Skew {
                sine: 0.0,
                cosine: 0.0,
            },
            at: unbegun(from, [0.0; 12]),
            sums,
        },
        Ok(l) => Base {
            on: true,
            steps: 0,
            skew: l.skew,
            at: unbegun(from, l.a),
            sums,
        },
    }
}

// The base run of the decision z, one step further where there is one: its node goes into the lent rows, its pointing error beside them. Gimbal angles in the
// table `lut` are known.
pub fn base_next(
    p: CheckedProblem,
    z: &Decision,
    b: Base,
    lut: &[f64],
    nodes: &mut [[f64; 22]; SOLVER_NODES],
    errors: &mut [[f64; 3]; 16],
) -> Base
    requires { (is_sized p.map ≡ true)
        × ((control_dim p.map ≤ 12) × (KnownOf p.map.cmgs lut.now × Holds p z.now b nodes.old errors.old)) }
    ensures { Holds p z.now result nodes.new errors.new }
{
    let k = b.steps;
    let skew = b.skew;
    let s = b.sums;
    if !b.on {
        return b;
    }
    if STEPS <= k {
        return b;
    }
    let angles = Angles { skew, lut };
    let w = steps_under(WheelLaw::Once, p, z, angles, k, k + 1, b.at, nodes);
    let sums = sums_next(nodes, z[0] / 16.0, k, s);
    let known = keep_error(target_of(p), nodes, k, errors);
    let fate = w.fate;
    let at = w.at;
    Base {
        on: goes(fate, known),
        steps: k + 1,
        skew: skew,
        at: at,
        sums: sums,
    }
}

// Whether the first e numbers of y and z are the same, bit for bit.
pub fn same_front(y: &[f64], z: &[f64], e: usize) -> bool
    requires { (e ≤ length y.now) × (e ≤ length z.now) }
    ensures { result ≡ true → Agree e y.now z.now }
{
    for i in 0..e {
        if !same_bits(y[i], z[i]) {
            return false;
        }
    }
    true
}

// Whether a base run of z that is kept, or not, begins the run of y: the first steps, n controls a row.
fn shares(on: bool, steps: usize, n: usize, z: &Decision, y: &Decision) -> bool
    requires { (on ≡ true → steps ≤ 16) × (n ≤ 12) }
    ensures { result ≡ true → (on ≡ true) × Same (1 + steps * n) y.now z.now }
{
    if !on {
        return false;
    }
    same_front(y, z, 1 + steps * n)
}

// The residuals of the decision y, n controls a row: its run begins where it parts from the base run of z, or at its start. The base run stays as it is kept.
pub fn residuals_sharing(
    p: CheckedProblem,
    n: usize,
    z: &Decision,
    b: Base,
    lut: &[f64],
    y: &Decision,
    nodes: &mut [[f64; 22]; SOLVER_NODES],
    errors: &[[f64; 3]; 16],
) -> ResidualVector
    requires { (is_sized p.map ≡ true)
        × ((control_dim p.map ≤ 12) × ((n ≡ control_dim p.map) × (KnownOf p.map.cmgs lut.now × Holds p z.now b nodes.old errors.now))) }
    ensures { (result ≡ residuals_of p y.now) × Holds p z.now b nodes.new errors.now }
{
    let k = b.steps;
    if !shares(b.on, k, n, z, y) {
        return residuals_of(p, *y);
    }
    let angles = Angles { skew: b.skew, lut };
    let w = run_on(WheelLaw::Once, p, y, angles, k, b.at, nodes);
    let fate = w.fate;
    match fate {
        Err(refusal) => refused_residuals(refusal.number, refusal.place),
        Ok(()) => {
            let s = b.sums;
            of_rows(target_of(p), y, nodes, k, s, errors)
        }
    }
}
