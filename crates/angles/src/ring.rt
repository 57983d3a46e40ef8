// The ring of four: sine, cosine, negated sine, negated cosine.
ghost use Rattle.std.specs.Prelude.{◌≡◌, ℕ, ◌+◌, ◌%◌, ◌^◌, ◌<◌};
ghost use Rattle.angles.specs.Angles.{signed, ring, to_float};
ghost use Rattle.angles.specs.SizesInner.{negative_at, size_at};

use super::fixed::to_float;
use super::series::{both_sizes, cosine_size, sine_size};

// Whether place q of the ring is negative, at a rest that is negative where `below`.
fn negative_at(q: u64, below: bool) -> bool
    requires { q < 4 }
    ensures { result ≡ negative_at q below }
{
    let turned = 2 <= q;
    if q % 2 == 0 { turned != below } else { turned }
}

// The size at place q, at a rest of the size u.
fn size_at(q: u64, u: u64) -> u64
    requires { (q < 4) × (u < 2 ^ 60) }
    ensures { result ≡ size_at q u }
{
    if q % 2 == 0 {
        let e = sine_size(u);
        e.sum
    } else {
        let e = cosine_size(u);
        e.sum
    }
}

// Place q of the ring at the rest of the size u, negative where `below`, as a float.
pub fn ring_at(q: u64, below: bool, u: u64) -> f64
    requires { (q < 4) × (u < 2 ^ 60) }
    ensures { result ≡ to_float (ring q (signed below u)) }
{
    to_float(size_at(q, u), negative_at(q, below))
}

// The size at place q, from those of both series.
fn size_of(q: u64, sine: u64, cosine: u64) -> u64
    requires { q < 4 }
    ensures { (u : ℕ) → sine ≡ size_at 0 u → cosine ≡ size_at 1 u → result ≡ size_at q u }
{
    if q % 2 == 0 { sine } else { cosine }
}

// A place of the ring and the next.
#[derive(Clone, Copy)]
pub struct Places {
    pub sine: f64,
    pub cosine: f64,
}

// Place q of the ring and the next, each series worked out once.
pub fn both_at(q: u64, below: bool, u: u64) -> Places
    requires { (q < 4) × (u < 2 ^ 60) }
    ensures { (result.sine ≡ to_float (ring q (signed below u))) × (result.cosine ≡ to_float (ring ((q + 1) % 4) (signed below u))) }
{
    let sums = both_sizes(u);
    let s = sums.sine.sum;
    let c = sums.cosine.sum;
    let next = (q + 1) % 4;
    Places {
        sine: to_float(size_of(q, s, c), negative_at(q, below)),
        cosine: to_float(size_of(next, s, c), negative_at(next, below)),
    }
}
