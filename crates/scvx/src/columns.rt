// The Jacobian by columns, each a forward difference over one run. Carried over from `jacobian` of quatopsy-plan/src/scvx.rs (Apache-2.0), changed: the
// kept rows of the columns stand one after the other in the front of the workspace, and a column's run begins where it parts from the base run's, on one lent set
// of nodes, and looks up the sines of the gimbal angles that it shares with the decision. A column whose control is held where it stands has no run of its own.
ghost use Rattle.std.specs.Prelude.{◌≡◌, true, ◌+◌, ◌*◌, ◌≤◌, ◌<◌, length};
ghost use Rattle.actuators.specs.Maps.{control_dim, is_sized};
ghost use Rattle.gimbal_angles.specs.Known.{KnownOf};
ghost use Rattle.residuals.specs.Residuals.{residuals_of};
ghost use Rattle.shared_runs.specs.Shared as Shared;
ghost use Rattle.kept_rows.specs.Kept.{kept, Zeros};
ghost use Rattle.scvx.specs.Search as Search;
ghost use Rattle.scvx.specs.ProgressInner.{Sizes, Answers, AnswersKept, ColumnMade, SameFrom, columns_in, columns_of};

use super::BrokenColumn;
use actuators::control_dim;
use common::{DECISION_NUMBERS, Decision, Refusal, ResidualNumbers, SOLVER_NODES, STEPS};
use forward::decisions::{project_decision, unpack};
use gimbal_angles::KNOWN_NUMBERS;
use kept_rows::{gather, kept};
use normal_equations::{FD_EPS, put_column};
use problem::CheckedProblem;
use shared_runs::{Base, base_next, base_start, know_angles, residuals_sharing, same_front};

// The numbers of a decision.
pub fn numbers(p: CheckedProblem) -> usize
    requires { control_dim p.map ≤ 12 }
    ensures { result ≡ Search.numbers p }
{
    1 + STEPS * control_dim(p.map)
}

// The residuals of a decision: 28, or 79 with a pointing weight above 0.
pub fn width(p: CheckedProblem) -> usize
    ensures { result ≡ Search.width p }
{
    if p.weights.pointing > 0.0 { 79 } else { 28 }
}

// The decision with its duration and its controls held to their limits.
pub fn project(p: CheckedProblem, z: Decision) -> Decision
    requires { control_dim p.map ≤ 12 }
    ensures { result ≡ Search.project p z }
{
    project_decision(p.map, p.torque_limit, unpack(z))
}

// The decision with number c moved by the step of the difference.
fn perturb(p: CheckedProblem, z: &Decision, c: usize) -> Decision
    requires { (control_dim p.map ≤ 12) × (c < 193) }
    ensures { result ≡ Search.perturb p z.now c }
{
    let mut plus = *z;
    plus[c] = plus[c] + FD_EPS;
    project(p, plus)
}

// Whether the decision y is z, bit for bit.
fn same_decision(y: &Decision, z: &Decision) -> bool
    ensures { result ≡ true → y.now ≡ z.now }
{
    same_front(y, z, DECISION_NUMBERS)
}

// The base run of a decision as far as it is kept, with its nodes and its pointing errors.
#[derive(Clone, Copy)]
struct BaseRun {
    at: Base,
    nodes: [[f64; 22]; SOLVER_NODES],
    errors: [[f64; 3]; 16],
}

// Column c of m numbers at the decision z, whose residuals' kept rows are r0, whose base run is kept and whose gimbal angles are known: one run, or none where the
// projection takes the move back and the decision is z again. Its kept rows are put; every other column and all past them stays, and all of v where the run is
// refused; so does what is kept of the base run.
fn column(
    p: CheckedProblem,
    v: &mut [f64],
    m: usize,
    c: usize,
    z: &Decision,
    r0: &ResidualNumbers,
    lut: &[f64],
    run: &mut BaseRun,
) -> Result<(), Refusal>
    requires { (is_sized p.map ≡ true)
        × ((control_dim p.map ≤ 12)
        × ((c < 193)
        × ((m ≡ Search.width p)
        × ((c * kept m + kept m ≤ length v.old)
        × (KnownOf p.map.cmgs lut.now
        × (AnswersKept p m z.now r0.now
        × Shared.Holds p z.now run.old.at run.old.nodes run.old.errors)))))) }
    ensures value { (result ≡ (residuals_of p (Search.perturb p z.now c)).fate)
        × ColumnMade p m c z.now r0.now result v.old v.new }
    ensures holds { Shared.Holds p z.now run.new.at run.new.nodes run.new.errors }
{
    let y = perturb(p, z, c);
    if same_decision(&y, z) {
        put_column(v, kept(m), c, r0, r0);
        return Ok(());
    }
    let controls = control_dim(p.map);
    let e = residuals_sharing(p, controls, z, run.at, lut, &y, &mut run.nodes, &run.errors);
    e.fate?;
    let mut rp = e.r;
    gather(m, &mut rp[..]);
    put_column(v, kept(m), c, &rp, r0);
    Ok(())
}

// Whether column c is past the row of the base run's next step.
fn past_row(steps: usize, controls: usize, c: usize) -> bool
    requires { controls ≤ 12 }
{
    if steps >= STEPS {
        return false;
    }
    (steps + 1) * controls < c
}

// The n columns of m numbers at the decision z, whose residuals are r0: their kept rows from the front of v on; a refused run ends them. All past them stays. The
// base run goes a step further with each row of the decision.
pub fn jacobian(
    p: CheckedProblem,
    v: &mut [f64],
    n: usize,
    m: usize,
    z: Decision,
    r0: ResidualNumbers,
) -> Result<(), BrokenColumn>
    requires { Sizes p n m (length v.old) × (Zeros m r0 × Answers p z r0) }
    ensures { (Search.jacobian p z r0 ≡ columns_of result (columns_in n m v.new)) × SameFrom (n * kept m) v.old v.new }
{
    let controls = control_dim(p.map);
    let mut front = r0;
    gather(m, &mut front[..]);
    let mut lut = [0.0; KNOWN_NUMBERS];
    know_angles(p.map, &z, &mut lut);
    let mut run = BaseRun {
        at: base_start(p),
        nodes: [[0.0; 22]; SOLVER_NODES],
        errors: [[0.0; 3]; 16],
    };
    for c in 0..n {
        if past_row(run.at.steps, controls, c) {
            run.at = base_next(p, &z, run.at, &lut, &mut run.nodes, &mut run.errors);
        }
        if let Err(why) = column(p, v, m, c, &z, &front, &lut, &mut run) {
            return Err(BrokenColumn { why, runs: c + 1 });
        }
    }
    Ok(())
}
