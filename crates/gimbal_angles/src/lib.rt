// Gimbal angles whose sines and cosines are known: a table of them, and a pyramid's matrix that looks there before it works one out. The Rust works out
// every one. A column of the search's Jacobian moves one gimbal, so three angles of four are those of the decision that the Jacobian is taken at.
#![tactic(auto)]

ghost use Rattle.std.specs.Prelude.{◌≡◌, ◌+◌, ◌*◌, ◌<◌};
ghost use Rattle.angles.specs.Both.{both_of};
ghost use Rattle.actuators.specs.Pyramid as Pyramid;
ghost use Rattle.gimbal_angles.specs.Known as Known;

use actuators::pyramid::pyramid_by;
use angles::sin_cos;
use common::{Refusal, STEPS};
use float_bits::same_bits;

// The lookup table, `lut` below: for each step and each of the four gimbals the angle after the step, its sine and its cosine.
pub const KNOWN_NUMBERS: usize = STEPS * 4 * 3;

pub type KnownAngles = [f64; KNOWN_NUMBERS];

// The sine and cosine of x: looked up where x is, bit for bit, the angle of gimbal g after step k in the table. An empty table knows none.
fn sin_cos_known(x: f64, lut: &[f64], k: usize, g: usize) -> Option<(f64, f64)>
    requires { (g < 4) × Known.Right lut.now }
    ensures { result ≡ both_of x }
{
    if (lut.len() == KNOWN_NUMBERS) & (k < STEPS) {
        let i = 12 * k + 3 * g;
        if same_bits(x, lut[i]) {
            return Some((lut[i + 1], lut[i + 2]));
        }
    }
    sin_cos(x)
}

// A pyramid's Jacobian from the skew's sine and cosine and the four gimbal angles after step k, of which those that stand in the table are looked up.
pub fn pyramid_known(
    sin_skew: f64,
    cos_skew: f64,
    delta: [f64; 4],
    lut: &[f64],
    k: usize,
) -> Result<[f64; 12], Refusal>
    requires { Known.Right lut.now }
    ensures { result ≡ Pyramid.pyramid_from sin_skew cos_skew delta }
{
    let b0 = sin_cos_known(delta[0], lut, k, 0);
    let b1 = sin_cos_known(delta[1], lut, k, 1);
    let b2 = sin_cos_known(delta[2], lut, k, 2);
    let b3 = sin_cos_known(delta[3], lut, k, 3);
    pyramid_by(sin_skew, cos_skew, b0, b1, b2, b3)
}

// Place i of the table becomes an angle, its sine and its cosine.
fn put_place(lut: &mut KnownAngles, i: usize, angle: f64, sine: f64, cosine: f64)
    requires { i < 64 }
    ensures { lut.new ≡ Known.placed lut.old i angle sine cosine }
{
    lut[3 * i] = angle;
    lut[3 * i + 1] = sine;
    lut[3 * i + 2] = cosine;
}

// Place i of the table becomes the angle x with its sine and cosine; where x is outside their range, the angle 0 with its own.
fn put_angle(lut: &mut KnownAngles, i: usize, x: f64)
    requires { (i < 64) × Known.Filled i lut.old }
    ensures { Known.Filled (i + 1) lut.new }
{
    match sin_cos(x) {
        Some((sine, cosine)) => put_place(lut, i, x, sine, cosine),
        None => put_place(lut, i, 0.0, 0.0, 1.0),
    }
}

// The places of step k become the four gimbal angles after it.
pub fn put_angles(lut: &mut KnownAngles, k: usize, delta: [f64; 4])
    requires { (k < 16) × Known.Filled (4 * k) lut.old }
    ensures { Known.Filled (4 * k + 4) lut.new }
{
    for g in 0..4 {
        put_angle(lut, 4 * k + g, delta[g]);
    }
}
