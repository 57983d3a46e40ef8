// Attitudes, vectors and inertia tensors. Carried over from quatopsy-plan/src/geom.rs (Apache-2.0), changed: a refusal is a number and a place, the tolerance
// of `normalized` is an argument, the checks of a problem file stay behind.
#![tactic(auto)]

ghost use Rattle.std.specs.Prelude.{◌≡◌};
ghost use Rattle.geom.specs.Vec as Vec;
ghost use Rattle.geom.specs.Quats as Quats;
ghost use Rattle.geom.specs.Tensors as Tensors;

use common::Refusal;

// Four numbers, the scalar part first.
#[derive(Clone, Copy)]
pub struct Quat {
    pub w: f64,
    pub x: f64,
    pub y: f64,
    pub z: f64,
}

impl Quat {
    pub fn new(w: f64, x: f64, y: f64, z: f64) -> Self
        ensures { result ≡ Quats.quat w x y z }
    {
        Self { w, x, y, z }
    }

    pub fn dot(self, other: Self) -> f64
        ensures { result ≡ Quats.dot_q self other }
    {
        self.w * other.w + self.x * other.x + self.y * other.y + self.z * other.z
    }

    pub fn scale(self, factor: f64) -> Self
        ensures { result ≡ Quats.scale_q self factor }
    {
        Self {
            w: self.w * factor,
            x: self.x * factor,
            y: self.y * factor,
            z: self.z * factor,
        }
    }

    pub fn negate(self) -> Self
        ensures { result ≡ Quats.negate_q self }
    {
        self.scale(-1.0)
    }

    pub fn conjugate(self) -> Self
        ensures { result ≡ Quats.conj self }
    {
        Self {
            w: self.w,
            x: -self.x,
            y: -self.y,
            z: -self.z,
        }
    }

    pub fn mul(self, other: Self) -> Self
        ensures { result ≡ Quats.quat_mul self other }
    {
        Self {
            w: self.w * other.w - self.x * other.x - self.y * other.y - self.z * other.z,
            x: self.w * other.x + self.x * other.w + self.y * other.z - self.z * other.y,
            y: self.w * other.y - self.x * other.z + self.y * other.w + self.z * other.x,
            z: self.w * other.z + self.x * other.y - self.y * other.x + self.z * other.w,
        }
    }

    pub fn is_finite(self) -> bool
        ensures { result ≡ Quats.finite_q self }
    {
        float::is_finite(self.w)
            & (float::is_finite(self.x) & (float::is_finite(self.y) & float::is_finite(self.z)))
    }

    pub fn norm(self) -> f64
        ensures { result ≡ Quats.norm_q self }
    {
        float::sqrt_near_one(self.dot(self))
    }

    pub fn normalized(self, tolerance: f64) -> Option<Quat>
        ensures { result ≡ Quats.normalized tolerance self }
    {
        if self.is_finite() {
            normal_by(self, self.norm(), tolerance)
        } else {
            None
        }
    }
}

pub fn add3(a: [f64; 3], b: [f64; 3]) -> [f64; 3]
    ensures { result ≡ Vec.add3 a b }
{
    [a[0] + b[0], a[1] + b[1], a[2] + b[2]]
}

pub fn sub3(a: [f64; 3], b: [f64; 3]) -> [f64; 3]
    ensures { result ≡ Vec.sub3 a b }
{
    [a[0] - b[0], a[1] - b[1], a[2] - b[2]]
}

pub fn scale3(v: [f64; 3], s: f64) -> [f64; 3]
    ensures { result ≡ Vec.scale3 v s }
{
    [v[0] * s, v[1] * s, v[2] * s]
}

pub fn dot3(a: [f64; 3], b: [f64; 3]) -> f64
    ensures { result ≡ Vec.dot3 a b }
{
    a[0] * b[0] + a[1] * b[1] + a[2] * b[2]
}

pub fn cross(a: [f64; 3], b: [f64; 3]) -> [f64; 3]
    ensures { result ≡ Vec.cross a b }
{
    [
        a[1] * b[2] - a[2] * b[1],
        a[2] * b[0] - a[0] * b[2],
        a[0] * b[1] - a[1] * b[0],
    ]
}

// The tensor of nine numbers, by rows.
pub fn tensor(j: [f64; 9]) -> [[f64; 3]; 3]
    ensures { result ≡ Vec.tensor j }
{
    [[j[0], j[1], j[2]], [j[3], j[4], j[5]], [j[6], j[7], j[8]]]
}

// The nine numbers of a tensor, by rows.
pub fn flatten(j: [[f64; 3]; 3]) -> [f64; 9]
    ensures { result ≡ Tensors.flatten j }
{
    [
        j[0][0], j[0][1], j[0][2], j[1][0], j[1][1], j[1][2], j[2][0], j[2][1], j[2][2],
    ]
}

pub fn apply_tensor(j: [[f64; 3]; 3], w: [f64; 3]) -> [f64; 3]
    ensures { result ≡ Vec.apply_tensor j w }
{
    [
        j[0][0] * w[0] + j[0][1] * w[1] + j[0][2] * w[2],
        j[1][0] * w[0] + j[1][1] * w[1] + j[1][2] * w[2],
        j[2][0] * w[0] + j[2][1] * w[1] + j[2][2] * w[2],
    ]
}

pub fn det3(j: [[f64; 3]; 3]) -> f64
    ensures { result ≡ Vec.det3 j }
{
    j[0][0] * (j[1][1] * j[2][2] - j[1][2] * j[2][1])
        - j[0][1] * (j[1][0] * j[2][2] - j[1][2] * j[2][0])
        + j[0][2] * (j[1][0] * j[2][1] - j[1][1] * j[2][0])
}

// Euler's equations in the body's frame, left side: J w' + w × (J w + h).
pub fn euler_lhs(j: [[f64; 3]; 3], wd: [f64; 3], w: [f64; 3], h: [f64; 3]) -> [f64; 3]
    ensures { result ≡ Vec.euler_lhs j wd w h }
{
    add3(apply_tensor(j, wd), cross(w, add3(apply_tensor(j, w), h)))
}

// The torque that turns a body about an axis. Carried over from quatopsy-plan/src/actuators.rs (Apache-2.0).
pub fn body_euler_torque(
    inertia: [[f64; 3]; 3],
    axis: [f64; 3],
    alpha: f64,
    omega: f64,
    h: [f64; 3],
) -> [f64; 3]
    ensures { result ≡ Vec.body_euler_torque inertia axis alpha omega h }
{
    euler_lhs(inertia, scale3(axis, alpha), scale3(axis, omega), h)
}

// q over its length n, where n is not zero, finite, and no further from 1 than the tolerance.
fn normal_by(q: Quat, n: f64, tolerance: f64) -> Option<Quat>
    ensures { result ≡ Quats.normal_by tolerance q n }
{
    if (n == 0.0) | !float::is_finite(n) {
        return None;
    }
    if float::abs(n - 1.0) > tolerance {
        None
    } else {
        Some(q.scale(1.0 / n))
    }
}

pub fn norm3(v: [f64; 3]) -> f64
    ensures { result ≡ Quats.norm3 v }
{
    float::sqrt(dot3(v, v))
}

pub fn unit3(v: [f64; 3]) -> Option<(f64, f64, f64)>
    ensures { result ≡ Quats.unit3 v }
{
    let n = norm3(v);
    if (n < 1.0e-18) | !float::is_finite(n) {
        return None;
    }
    let s = 1.0 / n;
    Some((v[0] * s, v[1] * s, v[2] * s))
}

// The turn by a rotation vector of length n.
pub fn exp_at(phi: [f64; 3], n: f64) -> Option<Quat>
    ensures { result ≡ Quats.exp_at phi n }
{
    if n < 1.0e-16 {
        return Some(Quat {
            w: 1.0,
            x: 0.5 * phi[0],
            y: 0.5 * phi[1],
            z: 0.5 * phi[2],
        });
    }
    let turn = angles::sin_cos(0.5 * n);
    match turn {
        Some((sine, cosine)) => {
            let s = sine / n;
            Some(Quat {
                w: cosine,
                x: phi[0] * s,
                y: phi[1] * s,
                z: phi[2] * s,
            })
        }
        None => None,
    }
}

pub fn exp_so3(phi: [f64; 3]) -> Option<Quat>
    ensures { result ≡ Quats.exp_so3 phi }
{
    exp_at(phi, norm3(phi))
}

// The rotation vector of a quaternion whose scalar part is not below 0.
fn log_up(q: Quat) -> Option<(f64, f64, f64)>
    ensures { result ≡ Quats.log_up q }
{
    let v = [q.x, q.y, q.z];
    let n = norm3(v);
    if n < 1.0e-16 {
        return Some((2.0 * q.x, 2.0 * q.y, 2.0 * q.z));
    }
    let half = angles::acos(float::clamp(q.w, -1.0, 1.0));
    match half {
        Some(a) => {
            let s = 2.0 * a / n;
            Some((q.x * s, q.y * s, q.z * s))
        }
        None => None,
    }
}

pub fn log_so3(q: Quat) -> Option<(f64, f64, f64)>
    ensures { result ≡ Quats.log_so3 q }
{
    if q.w < 0.0 {
        log_up(q.negate())
    } else {
        log_up(q)
    }
}

// The turn that takes the attitude q to r, as a rotation vector.
pub fn rotation_between(q: Quat, r: Quat) -> Option<(f64, f64, f64)>
    ensures { result ≡ Quats.rotation_between q r }
{
    log_so3(q.conjugate().mul(r))
}

// The larger of e and the excess of the torque's size over its limit.
fn over_by(e: f64, torque: f64, limit: f64) -> f64
    ensures { result ≡ Vec.over_by_value e torque limit }
{
    float::max(e, float::abs(torque) - limit)
}

pub fn torque_excess(torque: [f64; 3], limit: [f64; 3]) -> f64
    ensures { result ≡ Vec.torque_excess torque limit }
{
    let a = over_by(0.0, torque[0], limit[0]);
    let b = over_by(a, torque[1], limit[1]);
    over_by(b, torque[2], limit[2])
}

fn still(x: f64, bound: f64) -> bool
    ensures { result ≡ Vec.still x bound }
{
    float::is_finite(x) & (float::abs(x) <= bound)
}

pub fn rest(omega: [f64; 3], bound: f64) -> bool
    ensures { result ≡ Vec.rest omega bound }
{
    still(omega[0], bound) & (still(omega[1], bound) & still(omega[2], bound))
}

// Do two numbers differ by more than 1e-12?
fn apart(a: f64, b: f64) -> bool
    ensures { result ≡ Tensors.apart a b }
{
    float::abs(a - b) > 1.0e-12
}

// Whether a number is finite and above 0.
pub fn is_positive(x: f64) -> bool
    ensures { result ≡ Vec.is_positive_value x }
{
    float::is_finite(x) & (x > 0.0)
}

fn symmetric(j: [[f64; 3]; 3]) -> bool
    ensures { result ≡ Tensors.symmetric j }
{
    !apart(j[0][1], j[1][0]) & (!apart(j[0][2], j[2][0]) & !apart(j[1][2], j[2][1]))
}

fn definite(j: [[f64; 3]; 3]) -> bool
    ensures { result ≡ Tensors.definite j }
{
    is_positive(j[0][0])
        & (is_positive(j[0][0] * j[1][1] - j[0][1] * j[1][0]) & is_positive(det3(j)))
}

pub fn is_spd(j: [[f64; 3]; 3]) -> bool
    ensures { result ≡ Tensors.is_spd j }
{
    symmetric(j) & definite(j)
}

fn adjugate0(j: [[f64; 3]; 3]) -> [f64; 3]
    ensures { result ≡ Tensors.adjugate0 j }
{
    [
        j[1][1] * j[2][2] - j[1][2] * j[2][1],
        j[0][2] * j[2][1] - j[0][1] * j[2][2],
        j[0][1] * j[1][2] - j[0][2] * j[1][1],
    ]
}

fn adjugate1(j: [[f64; 3]; 3]) -> [f64; 3]
    ensures { result ≡ Tensors.adjugate1 j }
{
    [
        j[1][2] * j[2][0] - j[1][0] * j[2][2],
        j[0][0] * j[2][2] - j[0][2] * j[2][0],
        j[0][2] * j[1][0] - j[0][0] * j[1][2],
    ]
}

fn adjugate2(j: [[f64; 3]; 3]) -> [f64; 3]
    ensures { result ≡ Tensors.adjugate2 j }
{
    [
        j[1][0] * j[2][1] - j[1][1] * j[2][0],
        j[0][1] * j[2][0] - j[0][0] * j[2][1],
        j[0][0] * j[1][1] - j[0][1] * j[1][0],
    ]
}

fn flat(a: [f64; 3], b: [f64; 3], c: [f64; 3]) -> [f64; 9]
    ensures { result ≡ Tensors.flat a b c }
{
    [a[0], a[1], a[2], b[0], b[1], b[2], c[0], c[1], c[2]]
}

fn scaled_adjugate(j: [[f64; 3]; 3], s: f64) -> [f64; 9]
    ensures { result ≡ Tensors.scaled_adjugate j s }
{
    flat(
        scale3(adjugate0(j), s),
        scale3(adjugate1(j), s),
        scale3(adjugate2(j), s),
    )
}

// There is no inverse.
const NO_INVERSE: Refusal = Refusal {
    number: 6,
    place: 0,
};

// The inverse of a tensor, by rows.
pub fn invert3(j: [[f64; 3]; 3]) -> Result<[f64; 9], Refusal>
    ensures { result ≡ Tensors.invert3 j }
{
    let det = det3(j);
    if !float::is_finite(det) | (float::abs(det) < 1.0e-18) {
        return Err(NO_INVERSE);
    }
    Ok(scaled_adjugate(j, 1.0 / det))
}

// The inverse of an inertia tensor, by rows.
pub fn invert_spd(j: [[f64; 3]; 3]) -> Result<[f64; 9], Refusal>
    ensures { result ≡ Tensors.invert_spd j }
{
    if is_spd(j) {
        invert3(j)
    } else {
        Err(NO_INVERSE)
    }
}
