// Samples of a reference trajectory: a smooth rotation about one axis, at rest at both ends. The wheel momenta follow from the conservation of the total angular momentum at
// each instant, so that no error accumulates. Sample k of n stands at the fraction k / n of the duration. One record holds all that a sample reads; nothing is kept between samples.
#![tactic(auto)]

ghost use Rattle.std.specs.Prelude.{◌≡◌, ◌≤◌, pos, length};
ghost use Rattle.std.specs.Float.{binary64};
ghost use Rattle.std.specs.Float.Ieee.{of_int};
ghost use Rattle.reference_motion.specs.Motion as Motion;
ghost use Rattle.reference_motion.specs.Momenta as Momenta;

use common::Refusal;
use geom::{Quat, add3, apply_tensor, cross, scale3, sub3, tensor};

// A rotation from q0 to qf by the rotation vector phi in a duration, sampled at `steps` equal steps, with the body and its actuators: `count` axes A, three numbers an axis, the
// inverse of A Aᵀ, the limits of the controls, and of the wheels the limits of momentum and power, the start momenta h₀, their body momentum A h₀ = H₀, and the part of them
// that exerts no momentum on the body, h₀ - A⁺ H₀. Without actuators the axes are the body's.
#[derive(Clone, Copy)]
pub struct Reference {
    pub q0: Quat,
    pub qf: Quat,
    pub phi: [f64; 3],
    pub duration: f64,
    pub steps: usize,
    pub inertia: [f64; 9],
    pub torque_limit: [f64; 3],
    pub slew: Option<f64>,
    pub wheels: bool,
    pub count: usize,
    pub axes: [f64; 36],
    pub inverse: [f64; 9],
    pub limits: [f64; 12],
    pub momentum_limits: [f64; 12],
    pub power_limits: [f64; 12],
    pub start: [f64; 12],
    pub total: [f64; 3],
    pub null_momenta: [f64; 12],
}

// A sample: whether its sine and cosine are in range, the attitude, the rotation from q0, the rate, its derivative, the wheels' momenta. No Result: what stands beside a refusal is
// read too, since `slew_plan_reference_numbers` writes the momenta of a refused sample.
#[derive(Clone, Copy)]
pub struct Sample {
    pub fate: Result<(), Refusal>,
    pub q: Quat,
    pub rotation: Quat,
    pub w: [f64; 3],
    pub a: [f64; 3],
    pub h: [f64; 12],
}

// A count as a float.
fn to_float(n: usize) -> f64
    requires { n ≤ 100000 }
    ensures { result ≡ of_int binary64 (pos n) }
{
    let i = n as i64;
    i as f64
}

// The fraction of the duration at sample k of n.
pub fn fraction(k: usize, n: usize) -> f64
    requires { (k ≤ 100000) × (n ≤ 100000) }
    ensures { result ≡ Motion.fraction k n }
{
    to_float(k) / to_float(n)
}

// The fraction of the duration in the middle of step k of n.
pub fn mid_fraction(k: usize, n: usize) -> f64
    requires { (k ≤ 100000) × (n ≤ 100000) }
    ensures { result ≡ Motion.mid_fraction k n }
{
    (to_float(k) + 0.5) / to_float(n)
}

// The fraction s(x) of the rotation at the fraction x of the duration.
pub fn shape(x: f64) -> f64
    ensures { result ≡ Motion.shape x }
{
    x * x * x * (10.0 - 15.0 * x + 6.0 * x * x)
}

// Its derivative.
pub fn shape_rate(x: f64) -> f64
    ensures { result ≡ Motion.shape_rate x }
{
    30.0 * (x * x) * ((1.0 - x) * (1.0 - x))
}

// Its second derivative.
pub fn shape_acceleration(x: f64) -> f64
    ensures { result ≡ Motion.shape_acceleration x }
{
    60.0 * x * (1.0 - x) * (1.0 - 2.0 * x)
}

// The rotation vector phi plus what is left of the rotation q after the rotation `done` by phi, both about one axis.
fn correct_log(phi: [f64; 3], q: Quat, done: Quat) -> (f64, f64, f64)
    ensures { result ≡ Motion.correct_log phi q done }
{
    let left = done.conjugate().mul(q);
    let s = 2.0 * left.w;
    (
        phi[0] + s * left.x,
        phi[1] + s * left.y,
        phi[2] + s * left.z,
    )
}

// The rotation vector phi of the rotation q, with the logarithm's error taken out: the arc cosine is coarse near 1.
fn refine_log(phi: [f64; 3], q: Quat) -> Option<(f64, f64, f64)>
    ensures { result ≡ Motion.refine_log phi q }
{
    Some(correct_log(phi, q, geom::exp_so3(phi)?))
}

// The rotation vector from q0 to qf.
pub fn rotation_vector(q0: Quat, qf: Quat) -> Option<(f64, f64, f64)>
    ensures { result ≡ Motion.rotation_vector q0 qf }
{
    let (x, y, z) = geom::rotation_between(q0, qf)?;
    refine_log([x, y, z], q0.conjugate().mul(qf))
}

// The rotation from q0 at the fraction x of the duration.
fn rotation_at(r: Reference, x: f64) -> Option<Quat>
    ensures { result ≡ Motion.rotation_at r x }
{
    geom::exp_so3(scale3(r.phi, shape(x)))
}

// The rate there: phi s'(x) / T.
pub fn rate_at(r: Reference, x: f64) -> [f64; 3]
    ensures { result ≡ Motion.rate_at r x }
{
    scale3(r.phi, shape_rate(x) / r.duration)
}

// The rate's derivative there: phi s''(x) / T².
pub fn acceleration_at(r: Reference, x: f64) -> [f64; 3]
    ensures { result ≡ Motion.acceleration_at r x }
{
    scale3(r.phi, shape_acceleration(x) / (r.duration * r.duration))
}

// The vector v, fixed in space, in the axes of a body that was turned by q: Rᵀ v.
pub fn rotate_to_body(q: Quat, v: [f64; 3]) -> [f64; 3]
    ensures { result ≡ Momenta.rotate_to_body q v }
{
    let u = [q.x, q.y, q.z];
    let t = scale3(cross(u, v), 2.0);
    add3(sub3(v, scale3(t, q.w)), cross(u, t))
}

// The Gram matrix A Aᵀ of the first n axes, by rows.
pub fn gram_matrix(axes: &[f64; 36], n: usize) -> [f64; 9]
    requires { n ≤ 12 }
    ensures { result ≡ Momenta.gram_matrix axes.now n }
{
    let mut g = [0.0; 9];
    for i in 0..n {
        let x = axes[3 * i];
        let y = axes[3 * i + 1];
        let z = axes[3 * i + 2];
        g = [
            g[0] + x * x,
            g[1] + x * y,
            g[2] + x * z,
            g[3] + y * x,
            g[4] + y * y,
            g[5] + y * z,
            g[6] + z * x,
            g[7] + z * y,
            g[8] + z * z,
        ];
    }
    g
}

// Each of the first n numbers with the dot product of its axis and y added.
fn add_projections(start: [f64; 12], axes: &[f64; 36], n: usize, y: [f64; 3]) -> [f64; 12]
    requires { n ≤ 12 }
    ensures { result ≡ Momenta.add_projections start axes.now n y }
{
    let mut out = start;
    for i in 0..n {
        out[i] += axes[3 * i] * y[0] + axes[3 * i + 1] * y[1] + axes[3 * i + 2] * y[2];
    }
    out
}

// start + A⁺ v over n axes, with A⁺ = Aᵀ (A Aᵀ)⁻¹: the smallest change of the numbers, one an axis, whose sum along the axes changes by v.
pub fn allocate(
    axes: &[f64; 36],
    n: usize,
    inverse: [f64; 9],
    start: [f64; 12],
    v: [f64; 3],
) -> [f64; 12]
    requires { n ≤ 12 }
    ensures { result ≡ Momenta.allocate axes.now n inverse start v }
{
    add_projections(start, axes, n, apply_tensor(tensor(inverse), v))
}

// a - s b, number by number.
pub fn subtract_scaled(a: [f64; 12], b: [f64; 12], s: f64) -> [f64; 12]
    ensures { result ≡ Momenta.subtract_scaled a b s }
{
    [
        a[0] - s * b[0],
        a[1] - s * b[1],
        a[2] - s * b[2],
        a[3] - s * b[3],
        a[4] - s * b[4],
        a[5] - s * b[5],
        a[6] - s * b[6],
        a[7] - s * b[7],
        a[8] - s * b[8],
        a[9] - s * b[9],
        a[10] - s * b[10],
        a[11] - s * b[11],
    ]
}

// A u: the axes, each scaled by its number, added up.
pub fn body_vector(axes: &[f64; 36], n: usize, u: &[f64; 12]) -> [f64; 3]
    requires { n ≤ 12 }
    ensures { result ≡ Momenta.body_vector axes.now n u.now }
{
    control_rows::axis_sum(axes, n, u, [0.0; 3])
}

// The momentum that the wheels must hold after the rotation q at the rate w, in the body's axes: Rᵀ H₀ - J w.
pub fn required_momentum(r: Reference, q: Quat, w: [f64; 3]) -> [f64; 3]
    ensures { result ≡ Momenta.required_momentum r q w }
{
    sub3(
        rotate_to_body(q, r.total),
        apply_tensor(tensor(r.inertia), w),
    )
}

// The wheels' momenta after the rotation q at the rate w, where the fraction s of the rotation is done: h₀ - s ν + A⁺ (Rᵀ H₀ - J w - H₀), with ν the null-space part of h₀.
// Without wheels what the record has.
pub fn momenta_at(r: Reference, q: Quat, w: [f64; 3], s: f64) -> [f64; 12]
    requires { r.count ≤ 12 }
    ensures { result ≡ Momenta.momenta_at r q w s }
{
    if !r.wheels {
        return r.start;
    }
    let rest = subtract_scaled(r.start, r.null_momenta, s);
    let change = sub3(required_momentum(r, q, w), r.total);
    allocate(&r.axes, r.count, r.inverse, rest, change)
}

// The sample at the fraction x of the duration.
pub fn sample_at(r: Reference, x: f64) -> Sample
    requires { r.count ≤ 12 }
    ensures { result ≡ Momenta.sample_at r x }
{
    let w = rate_at(r, x);
    let a = acceleration_at(r, x);
    let Some(rotation) = rotation_at(r, x) else {
        let h = r.start;
        return Sample {
            fate: Err(Refusal {
                number: 11,
                place: 0,
            }),
            q: r.q0,
            rotation: r.q0,
            w,
            a,
            h,
        };
    };
    let h = momenta_at(r, rotation, w, shape(x));
    Sample {
        fate: Ok(()),
        q: r.q0.mul(rotation),
        rotation,
        w,
        a,
        h,
    }
}

// The wheels' torques over a step of dt that takes their momenta from a to b.
fn wheel_torques(a: [f64; 12], b: [f64; 12], dt: f64) -> [f64; 12]
    ensures { result ≡ Momenta.wheel_torques_value a b dt }
{
    [
        (b[0] - a[0]) / dt,
        (b[1] - a[1]) / dt,
        (b[2] - a[2]) / dt,
        (b[3] - a[3]) / dt,
        (b[4] - a[4]) / dt,
        (b[5] - a[5]) / dt,
        (b[6] - a[6]) / dt,
        (b[7] - a[7]) / dt,
        (b[8] - a[8]) / dt,
        (b[9] - a[9]) / dt,
        (b[10] - a[10]) / dt,
        (b[11] - a[11]) / dt,
    ]
}

// The thrusters' torques at the fraction x of the duration: A⁺ (J a + w × (J w)) over all axes.
fn thrusts_at(r: Reference, x: f64) -> [f64; 12]
    requires { r.count ≤ 12 }
    ensures { result ≡ Momenta.thrusts_at r x }
{
    let a = acceleration_at(r, x);
    let w = rate_at(r, x);
    let torque = geom::euler_lhs(tensor(r.inertia), a, w, [0.0; 3]);
    allocate(&r.axes, r.count, r.inverse, [0.0; 12], torque)
}

// The controls of step k, from the momenta at its two ends: the wheels' torques, or the thrusters' in the middle of the step.
pub fn controls(r: Reference, k: usize, a: [f64; 12], b: [f64; 12]) -> [f64; 12]
    requires { (r.count ≤ 12) × ((k ≤ 100000) × (r.steps ≤ 100000)) }
    ensures { result ≡ Momenta.controls r k a b }
{
    if r.wheels {
        wheel_torques(a, b, r.duration / to_float(r.steps))
    } else {
        thrusts_at(r, mid_fraction(k, r.steps))
    }
}
