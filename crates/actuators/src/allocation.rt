// Which controls give a body torque. Carried over from quatopsy-plan/src/actuators.rs (Apache-2.0), changed: the row is twenty numbers of which the first
// `control_dim` count, a refusal is a number and a place.
ghost use Rattle.std.specs.Prelude.{◌≡◌, ◌≤◌, ◌<◌, length};
ghost use Rattle.actuators.specs.Allocate as Allocate;

use crate::pyramid::{gram, pyramid_a, rows};
use crate::{ActuatorMap, CmgPyramid, is_empty};
use common::Refusal;
use geom::{apply_tensor, invert3, scale3, tensor};

// These actuators together are not served.
const UNSERVED: Refusal = Refusal {
    number: 8,
    place: 0,
};

// Their matrix has no inverse.
const SINGULAR: Refusal = Refusal {
    number: 6,
    place: 1,
};

// A row of three controls.
fn three(v: [f64; 3]) -> [f64; 20]
    ensures { result ≡ Allocate.three v }
{
    let mut u = [0.0; 20];
    u[0] = v[0];
    u[1] = v[1];
    u[2] = v[2];
    u
}

// A column of a 3 by 4 matrix times a vector.
fn column(a: [[f64; 4]; 3], k: usize, y: [f64; 3]) -> f64
    requires { k < 4 }
    ensures { result ≡ Allocate.column a k y }
{
    a[0][k] * y[0] + a[1][k] * y[1] + a[2][k] * y[2]
}

// A row of four gimbal rates: the transposed matrix times a vector.
fn four(a: [[f64; 4]; 3], y: [f64; 3]) -> [f64; 20]
    ensures { result ≡ Allocate.four a y }
{
    let mut u = [0.0; 20];
    u[0] = column(a, 0, y);
    u[1] = column(a, 1, y);
    u[2] = column(a, 2, y);
    u[3] = column(a, 3, y);
    u
}

// The first three axes of a table as the columns of a matrix.
fn columns(t: &[f64]) -> [[f64; 3]; 3]
    requires { 9 ≤ length t.now }
    ensures { result ≡ Allocate.columns t.now }
{
    [[t[0], t[3], t[6]], [t[1], t[4], t[7]], [t[2], t[5], t[8]]]
}

// The three controls that the matrix takes to v.
fn along_axes(a: [[f64; 3]; 3], v: [f64; 3]) -> Result<[f64; 20], Refusal>
    ensures { result ≡ Allocate.along_axes a v }
{
    match invert3(a) {
        Err(_) => Err(SINGULAR),
        Ok(m) => Ok(three(apply_tensor(tensor(m), v))),
    }
}

// The shortest gimbal rates that the matrix takes to v.
fn least_rates(a: [[f64; 4]; 3], v: [f64; 3]) -> Result<[f64; 20], Refusal>
    ensures { result ≡ Allocate.least_rates a v }
{
    match invert3(gram(a)) {
        Err(_) => Err(SINGULAR),
        Ok(m) => Ok(four(a, apply_tensor(tensor(m), v))),
    }
}

// A pyramid alone, its gimbals at rest.
fn pyramid_alone(pyramid: CmgPyramid, tau: [f64; 3]) -> Result<[f64; 20], Refusal>
    ensures { result ≡ Allocate.pyramid_alone pyramid tau }
{
    let a = pyramid_a(pyramid.skew_rad, [0.0; 4])?;
    least_rates(rows(a), scale3(tau, -1.0 / pyramid.wheel_momentum_nms))
}

// Three or more of a kind, and none of the other.
fn alone(count: usize, others: usize) -> bool
    ensures { result ≡ Allocate.alone count others }
{
    (count >= 3) & (others == 0)
}

// Wheels or thrusters, with no pyramid.
fn axes_alone(map: ActuatorMap, tau: [f64; 3]) -> Result<[f64; 20], Refusal>
    ensures { result ≡ Allocate.axes_alone map tau }
{
    if alone(map.wheel_count, map.thruster_count) {
        return along_axes(columns(&map.wheel_axes), scale3(tau, -1.0));
    }
    if alone(map.thruster_count, map.wheel_count) {
        return along_axes(columns(&map.thruster_axes), tau);
    }
    Err(UNSERVED)
}

// The row of controls that gives the body torque tau; the first `control_dim` of its numbers count.
pub fn allocate_body_torque(map: ActuatorMap, tau: [f64; 3]) -> Result<[f64; 20], Refusal>
    ensures { result ≡ Allocate.allocate map tau }
{
    if is_empty(map) {
        return Ok(three(tau));
    }
    let Some(pyramid) = map.cmgs else {
        return axes_alone(map, tau);
    };
    if (map.wheel_count == 0) & (map.thruster_count == 0) {
        pyramid_alone(pyramid, tau)
    } else {
        Err(UNSERVED)
    }
}
