// How the series of an argument end: the sum's size and how many terms were formed, a zero one, which ends the series, counted. sin, cos, sin_cos and acos take
// the sums; these functions answer the counts too.
ghost use Rattle.std.specs.Prelude.{◌≡◌};
ghost use Rattle.angles.specs.Ended.{sine_series, cosine_series, both_series, arc_series};

use super::arc::arc_ended;
use super::series::{both_sizes, cosine_size, sine_size};
use super::turn::reduced;
use super::{Zone, region};

// The sine's series at the rest of x.
pub fn sine_series(x: f64) -> Option<(u64, u64)>
    ensures { result ≡ sine_series x }
{
    let zone = region(x);
    match zone {
        Zone::Outside => None,
        Zone::Tiny => None,
        Zone::Inside => {
            let t = reduced(x);
            let e = sine_size(t.size);
            Some((e.sum, e.terms))
        }
    }
}

// The cosine's.
pub fn cosine_series(x: f64) -> Option<(u64, u64)>
    ensures { result ≡ cosine_series x }
{
    let zone = region(x);
    match zone {
        Zone::Outside => None,
        Zone::Tiny => None,
        Zone::Inside => {
            let t = reduced(x);
            let e = cosine_size(t.size);
            Some((e.sum, e.terms))
        }
    }
}

// Both, as sin_cos works them out.
pub fn both_series(x: f64) -> Option<(u64, u64, u64, u64)>
    ensures { result ≡ both_series x }
{
    let zone = region(x);
    match zone {
        Zone::Outside => None,
        Zone::Tiny => None,
        Zone::Inside => {
            let t = reduced(x);
            let e = both_sizes(t.size);
            Some((e.sine.sum, e.sine.terms, e.cosine.sum, e.cosine.terms))
        }
    }
}

// The arc cosine's series at w.
pub fn arc_series(w: f64) -> Option<(u64, u64)>
    ensures { result ≡ arc_series w }
{
    if 0.0 <= w {
        if w <= 1.0 {
            let e = arc_ended(w);
            return Some((e.sum, e.terms));
        }
    }
    None
}
