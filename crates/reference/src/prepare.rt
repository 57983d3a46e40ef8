// The reference of a checked problem: its actuators' table with the inverse of their Gram matrix, its rotation vector, its total momentum.
ghost use Rattle.std.specs.Prelude.{◌≡◌, ◌≤◌, true, IfOk};
ghost use Rattle.actuators.specs.Maps.{is_sized};
ghost use Rattle.reference.specs.Prepare as Prepare;

use crate::layout::{Layout, layout_of};
use common::Refusal;
use geom::{invert3, tensor};
use problem::CheckedProblem;
use reference_motion::{
    Reference, allocate, body_vector, gram_matrix, rotation_vector, subtract_scaled,
};

// (A Aᵀ)⁻¹ of a table's axes A.
fn gram_inverse(l: Layout) -> Result<[f64; 9], Refusal>
    requires { l.count ≤ 12 }
    ensures { result ≡ Prepare.gram_inverse l }
{
    invert3(tensor(gram_matrix(&l.axes, l.count)))
}

// H₀ = A h₀: the total momentum, which at rest is the wheels'.
fn total_momentum(l: Layout) -> [f64; 3]
    requires { l.count ≤ 12 }
    ensures { result ≡ Prepare.total_momentum l }
{
    body_vector(&l.axes, l.count, &l.start)
}

// The part of the start momenta that exerts no momentum on the body: h₀ - A⁺ H₀.
fn null_momenta(l: Layout, inverse: [f64; 9], total: [f64; 3]) -> [f64; 12]
    requires { l.count ≤ 12 }
    ensures { result ≡ Prepare.null_momenta_value l inverse total }
{
    let row_part = allocate(&l.axes, l.count, inverse, [0.0; 12], total);
    subtract_scaled(l.start, row_part, 1.0)
}

// The reference of a checked problem over a table of its actuators and the inverse of their Gram matrix, with its rotation vector.
fn reference_of(
    c: CheckedProblem,
    l: Layout,
    inverse: [f64; 9],
    phi: [f64; 3],
    duration: f64,
    steps: usize,
) -> Reference
    requires { l.count ≤ 12 }
    ensures { result ≡ Prepare.reference_of c l inverse phi duration steps }
{
    let CheckedProblem {
        q0,
        qf,
        inertia,
        torque_limit,
        slew,
        ..
    } = c;
    let Layout {
        wheels,
        count,
        axes,
        limits,
        momentum_limits,
        power_limits,
        start,
    } = l;
    let total = total_momentum(l);
    let null_momenta = null_momenta(l, inverse, total);
    Reference {
        q0,
        qf,
        phi,
        duration,
        steps,
        inertia,
        torque_limit,
        slew,
        wheels,
        count,
        axes,
        inverse,
        limits,
        momentum_limits,
        power_limits,
        start,
        total,
        null_momenta,
    }
}

// The reference of a checked problem over a table of its actuators: 6 at place 1 where their axes do not span, 11 where there is no rotation vector.
fn prepare_layout(
    c: CheckedProblem,
    l: Layout,
    duration: f64,
    steps: usize,
) -> Result<Reference, Refusal>
    requires { l.count ≤ 12 }
    ensures { result ≡ Prepare.prepare_layout c l duration steps }
{
    let Ok(inverse) = gram_inverse(l) else {
        return Err(Refusal {
            number: 6,
            place: 1,
        });
    };
    let Some((x, y, z)) = rotation_vector(c.q0, c.qf) else {
        return Err(Refusal {
            number: 11,
            place: 0,
        });
    };
    Ok(reference_of(c, l, inverse, [x, y, z], duration, steps))
}

// The reference of a checked problem, of a duration and so many steps; the table's refusal comes first.
pub fn prepare_reference(
    c: CheckedProblem,
    duration: f64,
    steps: usize,
) -> Result<Reference, Refusal>
    requires { is_sized c.map ≡ true }
    ensures { (result ≡ Prepare.prepare_reference c duration steps) × IfOk result (λ r. r.count ≤ 12) }
{
    let l = layout_of(c.map, c.momenta, c.torque_limit)?;
    prepare_layout(c, l, duration, steps)
}

// The same reference of another duration and step count.
pub fn with_times(r: Reference, duration: f64, steps: usize) -> Reference
    ensures { result ≡ Prepare.with_times r duration steps }
{
    Reference {
        duration,
        steps,
        ..r
    }
}
