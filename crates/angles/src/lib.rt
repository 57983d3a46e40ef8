// sin, cos and acos by whole numbers scaled by 2^60, as the specification has them: the same bits on every machine.
// An argument outside the range, or a NaN, is answered `Outside`.
#![tactic(auto)]

ghost use Rattle.std.specs.Prelude.{◌≡◌};
ghost use Rattle.angles.specs.Angles.{in_range, tiny, region_of, sin_of, cos_of};
ghost use Rattle.angles.specs.Arcs.{acos_of};
ghost use Rattle.angles.specs.Both.{both_of};

use arc::arc_cosine;
use ring::{both_at, ring_at};
use turn::reduced;

pub mod arc;
pub mod counted;
pub mod fixed;
pub mod ring;
pub mod series;
pub mod turn;

// Where an argument of sin or cos lies: over 1,024 in size or a NaN, below 2^-26 in size, or between.
#[derive(Clone, Copy)]
pub enum Zone {
    Outside,
    Tiny,
    Inside,
}

// Whether the size is at most 1,024.
fn in_range(x: f64) -> bool
    ensures { result ≡ in_range x }
{
    if -1024.0 <= x { x <= 1024.0 } else { false }
}

// Whether the size is below 2^-26.
fn is_tiny(x: f64) -> bool
    ensures { result ≡ tiny x }
{
    if -1.490116119384765625e-8 < x {
        x < 1.490116119384765625e-8
    } else {
        false
    }
}

// Where an argument lies.
pub fn region(x: f64) -> Zone
    ensures { result ≡ region_of x }
{
    if in_range(x) {
        if is_tiny(x) { Zone::Tiny } else { Zone::Inside }
    } else {
        Zone::Outside
    }
}

// The sine; the ring's place at the argument's quarters.
pub fn sin(x: f64) -> Option<f64>
    ensures { result ≡ sin_of x }
{
    if in_range(x) {
        if is_tiny(x) {
            return Some(x);
        }
        let t = reduced(x);
        Some(ring_at(t.quarter, t.below, t.size))
    } else {
        None
    }
}

// The cosine: the next place of the ring.
pub fn cos(x: f64) -> Option<f64>
    ensures { result ≡ cos_of x }
{
    if in_range(x) {
        if is_tiny(x) {
            return Some(1.0);
        }
        let t = reduced(x);
        Some(ring_at((t.quarter + 1) % 4, t.below, t.size))
    } else {
        None
    }
}

// The sine and the cosine of one angle: one reduction, each series once.
pub fn sin_cos(x: f64) -> Option<(f64, f64)>
    ensures { result ≡ both_of x }
{
    if in_range(x) {
        if is_tiny(x) {
            return Some((x, 1.0));
        }
        let t = reduced(x);
        let b = both_at(t.quarter, t.below, t.size);
        Some((b.sine, b.cosine))
    } else {
        None
    }
}

// The arc cosine, for an argument from 0 to 1.
pub fn acos(w: f64) -> Option<f64>
    ensures { result ≡ acos_of w }
{
    if 0.0 <= w {
        if w <= 1.0 {
            return Some(arc_cosine(w));
        }
    }
    None
}
