// Residuals of a run, term by term in the Rust's order. Carried over from `residuals` of quatopsy-plan/src/scvx.rs (Apache-2.0), changed: the residuals stand
// in an array of 79, and the 17 keep-out rows stay as 0.0.
ghost use Rattle.std.specs.Prelude.{◌≡◌, true, ◌+◌, ◌-◌, ◌*◌, ◌≤◌, ◌<◌, length};
ghost use Rattle.actuators.specs.Maps.{control_dim, is_sized};
ghost use Rattle.forward.specs.Decisions.{step_time};
ghost use Rattle.forward.specs.Rows.{node_from, nodes_from};
ghost use Rattle.forward.specs.Runs.{node_at};
ghost use Rattle.residuals.specs.Sums.{norm_slice};
ghost use Rattle.residuals.specs.Begins.{Fits, Begins, Summed, Aims, ErrorsKept, ErrorsKnown, rows_by};
ghost use Rattle.residuals.specs.PointLaws.{Rows};
ghost use Rattle.residuals.specs.Residuals as Residuals;

use super::sums::{effort, energy, norm_slice, smooth};
use super::{Begun, ResidualVector, Target};
use common::{Decision, RESIDUAL_NUMBERS, Refusal, ResidualNumbers, SOLVER_NODES, STEPS};
use control_rows::WheelLaw;
use float::sqrt;
use forward::rows::{attitude_in, momenta_in, rate_in};
use forward::runs::run_into;
use geom::Quat;
use problem::CheckedProblem;

// Residuals that are refused.
pub fn refused_residuals(number: usize, place: usize) -> ResidualVector
    ensures { result ≡ Residuals.refused_residuals number place }
{
    let r = [0.0; RESIDUAL_NUMBERS];
    ResidualVector {
        fate: Err(Refusal { number, place }),
        count: 0,
        r: r,
    }
}

// Three numbers written from place i on.
fn put3(r: &mut ResidualNumbers, i: usize, v: [f64; 3])
    requires { i + 2 < 79 }
    ensures { r.new ≡ Residuals.put3 r.old i v }
{
    r[i] = v[0];
    r[i + 1] = v[1];
    r[i + 2] = v[2];
}

// The first six residuals: the attitude error at the end and the rate there.
fn ends(error: [f64; 3], rate: [f64; 3]) -> ResidualNumbers
    ensures { result ≡ Residuals.ends error rate }
{
    let mut r = [0.0; RESIDUAL_NUMBERS];
    put3(&mut r, 0, geom::scale3(error, 400.0));
    put3(&mut r, 3, geom::scale3(rate, 400.0));
    r
}

// The root of a weight times the root of a sum.
fn weighted(weight: f64, x: f64) -> f64
    ensures { result ≡ Residuals.weighted weight x }
{
    sqrt(weight) * sqrt(x)
}

// The computed length of the first n wheel momenta.
fn stored(hw: [f64; 8], n: usize) -> f64
    requires { n ≤ 8 }
    ensures { result ≡ norm_slice hw n }
{
    norm_slice(&hw, n)
}

// How many changes of rate k nodes have between them.
pub fn changes(k: usize) -> usize
    ensures { result ≡ k - 1 }
{
    if k == 0 { 0 } else { k - 1 }
}

// The last five terms, written from place i on: time, control, energy, smoothness, momentum. The first k steps make the sums s.
fn closing(
    t: Target,
    z: &[f64],
    nodes: &[[f64; 22]; SOLVER_NODES],
    k: usize,
    s: Begun,
    i: usize,
    r: &mut ResidualNumbers,
)
    requires { (i + 4 < 79) × (Fits t z.now × Summed (step_time z.now) nodes.now k s) }
    ensures { r.new ≡ Residuals.closing t z.now (nodes_from nodes.now) i r.old }
{
    let weights = t.weights;
    let n = STEPS * t.controls;
    let duration = z[0];
    let dt = duration / 16.0;
    let hw = momenta_in(nodes[STEPS]);
    let control = weighted(weights.control, effort(z, n) * dt);
    let spent = weighted(weights.energy, energy(nodes, dt, k, s.energy));
    let change = weighted(weights.smoothness, smooth(nodes, dt, changes(k), s.smooth));
    r[i] = sqrt(weights.time) * duration * 0.02;
    r[i + 1] = control;
    r[i + 2] = spent;
    r[i + 3] = change;
    r[i + 4] = sqrt(weights.momentum) * stored(hw, t.wheels);
}

// The turn that is left from the attitude in a row to qf.
pub fn error_in(row: [f64; 22], qf: Quat) -> Option<(f64, f64, f64)>
    ensures { result ≡ Residuals.error_of (node_from row).q qf }
{
    let q = attitude_in(row);
    geom::rotation_between(q, qf)
}

// Keeps the pointing error of node k beside those of the nodes before it, where there is a pointing weight: whether it is not refused.
pub fn keep_error(
    t: Target,
    nodes: &[[f64; 22]; SOLVER_NODES],
    k: usize,
    errors: &mut [[f64; 3]; 16],
) -> bool
    requires { (k < 16) × ((length nodes.now ≡ 17) × ((length errors.old ≡ 16) × ErrorsKnown t (nodes_from nodes.now) k errors.old)) }
    ensures { (result ≡ true → ErrorsKnown t (nodes_from nodes.now) (k + 1) errors.new) × (length errors.new ≡ 16) }
{
    let weights = t.weights;
    if weights.pointing > 0.0 {
        let error = error_in(nodes[k], t.qf);
        match error {
            None => return false,
            Some((x, y, z)) => {
                let e = [x, y, z];
                errors[k] = e;
                return true;
            }
        }
    }
    true
}

// The same of node j, where those of the first k nodes are kept.
fn error_at(
    nodes: &[[f64; 22]; SOLVER_NODES],
    qf: Quat,
    k: usize,
    errors: &[[f64; 3]; 16],
    j: usize,
) -> Option<(f64, f64, f64)>
    requires { (j < 16) × ((length nodes.now ≡ 17) × ErrorsKept qf (nodes_from nodes.now) k errors.now) }
    ensures { result ≡ Residuals.error_of (node_at (nodes_from nodes.now) j).q qf }
{
    if j < k {
        return Some((errors[j][0], errors[j][1], errors[j][2]));
    }
    error_in(nodes[j], qf)
}

// Node j's pointing error, scaled, into its three rows.
fn point(
    error: Option<(f64, f64, f64)>,
    scale: f64,
    j: usize,
    r: &mut ResidualNumbers,
) -> Result<(), Refusal>
    requires { j < 17 }
    ensures { rows_by result r.new ≡ Residuals.point_by error scale j r.old }
{
    match error {
        None => Err(Refusal {
            number: 11,
            place: 0,
        }),
        Some((x, y, z)) => {
            put3(r, 7 + 4 * j, geom::scale3([x, y, z], scale));
            Ok(())
        }
    }
}

// The rows of the first 16 nodes.
fn pointed(
    scale: f64,
    nodes: &[[f64; 22]; SOLVER_NODES],
    qf: Quat,
    k: usize,
    errors: &[[f64; 3]; 16],
    r: &mut ResidualNumbers,
) -> Result<(), Refusal>
    requires { (length nodes.now ≡ 17) × ErrorsKept qf (nodes_from nodes.now) k errors.now }
    ensures { Rows scale (nodes_from nodes.now) qf r.old (rows_by result r.new) 16 }
{
    for j in 0..STEPS {
        point(error_at(nodes, qf, k, errors, j), scale, j, r)?;
    }
    Ok(())
}

// Residuals with a pointing weight above 0: 79. The error is that of the last node.
fn with_pointing(
    t: Target,
    z: &[f64],
    nodes: &[[f64; 22]; SOLVER_NODES],
    k: usize,
    s: Begun,
    errors: &[[f64; 3]; 16],
    error: [f64; 3],
    r: ResidualNumbers,
) -> ResidualVector
    requires { Fits t z.now × (Summed (step_time z.now) nodes.now k s × Aims t.qf (nodes_from nodes.now) k errors.now error) }
    ensures { result ≡ Residuals.with_pointing t z.now (nodes_from nodes.now) r }
{
    let weights = t.weights;
    let qf = t.qf;
    let scale = sqrt(weights.pointing / 17.0);
    let mut out = r;
    let fate = pointed(scale, nodes, qf, k, errors, &mut out);
    match fate {
        Err(refusal) => return refused_residuals(refusal.number, refusal.place),
        Ok(()) => {}
    }
    put3(&mut out, 71, geom::scale3(error, scale));
    closing(t, z, nodes, k, s, 74, &mut out);
    ResidualVector {
        fate: Ok(()),
        count: 79,
        r: out,
    }
}

// Residuals without one: 28.
fn without_pointing(
    t: Target,
    z: &[f64],
    nodes: &[[f64; 22]; SOLVER_NODES],
    k: usize,
    s: Begun,
    r: ResidualNumbers,
) -> ResidualVector
    requires { Fits t z.now × Summed (step_time z.now) nodes.now k s }
    ensures { result ≡ Residuals.without_pointing t z.now (nodes_from nodes.now) r }
{
    let mut out = r;
    closing(t, z, nodes, k, s, 23, &mut out);
    ResidualVector {
        fate: Ok(()),
        count: 28,
        r: out,
    }
}

// The residuals of the nodes in rows, of which those of the first k steps are known.
pub fn of_rows(
    t: Target,
    z: &[f64],
    nodes: &[[f64; 22]; SOLVER_NODES],
    k: usize,
    s: Begun,
    errors: &[[f64; 3]; 16],
) -> ResidualVector
    requires { Fits t z.now × Begins t (step_time z.now) nodes.now k s errors.now }
    ensures { result ≡ Residuals.of_nodes t z.now (nodes_from nodes.now) }
{
    let error = error_in(nodes[STEPS], t.qf);
    match error {
        None => refused_residuals(11, 0),
        Some((a, b, c)) => {
            let end = [a, b, c];
            let r = ends(end, rate_in(nodes[STEPS]));
            let weights = t.weights;
            if weights.pointing > 0.0 {
                return with_pointing(t, z, nodes, k, s, errors, end, r);
            }
            without_pointing(t, z, nodes, k, s, r)
        }
    }
}

// What the residuals read of a problem.
pub fn target_of(p: CheckedProblem) -> Target
    ensures { result ≡ Residuals.target_of p }
{
    let map = p.map;
    let qf = p.qf;
    let weights = p.weights;
    let wheels = map.wheel_count;
    Target {
        qf: qf,
        weights: weights,
        controls: actuators::control_dim(map),
        wheels: wheels,
    }
}

// One forward run and its residuals.
pub fn residuals_of(p: CheckedProblem, z: Decision) -> ResidualVector
    requires { (is_sized p.map ≡ true) × (control_dim p.map ≤ 12) }
    ensures { result ≡ Residuals.residuals_of p z }
{
    let row = [0.0; 22];
    let mut nodes = [row; 17];
    let w = run_into(WheelLaw::Once, p, &z, &mut nodes);
    let fate = w.fate;
    match fate {
        Err(refusal) => refused_residuals(refusal.number, refusal.place),
        Ok(()) => {
            let none = [0.0; 3];
            let errors = [none; 16];
            let s = Begun {
                energy: 0.0,
                smooth: 0.0,
            };
            of_rows(target_of(p), &z, &nodes, 0, s, &errors)
        }
    }
}
