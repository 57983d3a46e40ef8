// The Jacobian of a four-CMG pyramid and how far it is from singular. Carried over from quatopsy-plan/src/actuators.rs (Apache-2.0), changed: an angle outside
// the recipe's range is refused, the skew's sine and cosine may be made once and handed in.
ghost use Rattle.std.specs.Prelude.{◌≡◌};
ghost use Rattle.actuators.specs.Pyramid as Pyramid;

use crate::{ActuatorMap, CmgPyramid};
use angles::sin_cos;
use common::Refusal;
use geom::det3;

// An angle is outside the range of sine and cosine.
const BEYOND: Refusal = Refusal {
    number: 11,
    place: 0,
};

// The Jacobian, a 3 by 4 matrix by rows, from the skew's sine and cosine, already made, and what sine and cosine say of the four gimbal angles.
pub fn pyramid_by(
    sin_skew: f64,
    cos_skew: f64,
    b0: Option<(f64, f64)>,
    b1: Option<(f64, f64)>,
    b2: Option<(f64, f64)>,
    b3: Option<(f64, f64)>,
) -> Result<[f64; 12], Refusal>
    ensures { result ≡ Pyramid.pyramid_by sin_skew cos_skew b0 b1 b2 b3 }
{
    let (s0, c0) = b0.ok_or(BEYOND)?;
    let (s1, c1) = b1.ok_or(BEYOND)?;
    let (s2, c2) = b2.ok_or(BEYOND)?;
    let (s3, c3) = b3.ok_or(BEYOND)?;
    Ok([
        -cos_skew * s0,
        -c1,
        cos_skew * s2,
        c3,
        c0,
        -cos_skew * s1,
        -c2,
        cos_skew * s3,
        sin_skew * c0,
        sin_skew * c1,
        sin_skew * c2,
        sin_skew * c3,
    ])
}

// The Jacobian from the skew's sine and cosine, already made, and the four gimbal angles.
pub fn pyramid_from(sin_skew: f64, cos_skew: f64, delta: [f64; 4]) -> Result<[f64; 12], Refusal>
    ensures { result ≡ Pyramid.pyramid_from sin_skew cos_skew delta }
{
    let b0 = sin_cos(delta[0]);
    let b1 = sin_cos(delta[1]);
    let b2 = sin_cos(delta[2]);
    let b3 = sin_cos(delta[3]);
    pyramid_by(sin_skew, cos_skew, b0, b1, b2, b3)
}

// The Jacobian `A(δ)` of a pyramid such that the torque is `-h A(δ) δ̇`, by rows; refusal 11 where an angle is outside the range of sine and cosine.
pub fn pyramid_a(skew: f64, delta: [f64; 4]) -> Result<[f64; 12], Refusal>
    ensures { result ≡ Pyramid.pyramid_a skew delta }
{
    let (s, c) = sin_cos(skew).ok_or(BEYOND)?;
    pyramid_from(s, c, delta)
}

// The 3 by 4 matrix of twelve numbers, by rows.
pub fn rows(a: [f64; 12]) -> [[f64; 4]; 3]
    ensures { result ≡ Pyramid.rows a }
{
    [
        [a[0], a[1], a[2], a[3]],
        [a[4], a[5], a[6], a[7]],
        [a[8], a[9], a[10], a[11]],
    ]
}

// The dot product of two rows.
fn dot4(a: [f64; 4], b: [f64; 4]) -> f64
    ensures { result ≡ Pyramid.dot4 a b }
{
    a[0] * b[0] + a[1] * b[1] + a[2] * b[2] + a[3] * b[3]
}

// The Gram matrix `A Aᵀ`.
pub fn gram(a: [[f64; 4]; 3]) -> [[f64; 3]; 3]
    ensures { result ≡ Pyramid.gram a }
{
    let x = a[0];
    let y = a[1];
    let z = a[2];
    [
        [dot4(x, x), dot4(x, y), dot4(x, z)],
        [dot4(y, x), dot4(y, y), dot4(y, z)],
        [dot4(z, x), dot4(z, y), dot4(z, z)],
    ]
}

// How far a made matrix is from singular: the determinant of `A Aᵀ`.
pub fn singularity_of(a: [f64; 12]) -> f64
    ensures { result ≡ Pyramid.singularity_of a }
{
    det3(gram(rows(a)))
}

// A pyramid's measure at the gimbal angles.
fn pyramid_measure(skew: f64, delta: [f64; 4]) -> Option<f64>
    ensures { result ≡ Pyramid.pyramid_measure skew delta }
{
    match pyramid_a(skew, delta) {
        Err(_) => None,
        Ok(a) => Some(singularity_of(a)),
    }
}

// How far the actuators are from singular: infinity without a pyramid, else the determinant of `A Aᵀ`.
pub fn singularity(map: ActuatorMap, delta: [f64; 4]) -> Option<f64>
    ensures { result ≡ Pyramid.singularity map delta }
{
    match map.cmgs {
        None => Some(f64::from_bits(0x7ff0_0000_0000_0000)),
        Some(pyramid) => pyramid_measure(pyramid.skew_rad, delta),
    }
}
