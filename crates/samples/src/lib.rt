// Dense samples of a path, one at a time. Carried over from `densify` and `interpolate` of quatopsy-plan/src/scvx.rs (Apache-2.0), changed: a call answers one
// sample and stores none, the path's nodes are lent as rows of numbers, the tolerance of `normalized` is an argument, a refusal is a number and a place.
#![tactic(auto)]

ghost use Rattle.std.specs.Prelude.{◌≡◌};
ghost use Rattle.samples.specs.Counts as Counts;
ghost use Rattle.samples.specs.Samples as Samples;

use self::counts::{larger, spacing, whole, whole_above};
use self::nodes::{interpolate, time_of};
use common::{Refusal, SOLVER_NODES};
use geom::Quat;

// The most dense samples of a path.
const MAX_SAMPLES: usize = 100_000;

pub mod counts;
pub mod nodes;
pub mod rows;

// A sample: time, attitude, rate, torque, body momentum.
#[derive(Clone, Copy)]
pub struct PathSample {
    pub t: f64,
    pub q: Quat,
    pub w: [f64; 3],
    pub tau: [f64; 3],
    pub h: [f64; 3],
}

// How many samples a path of this duration has: what is requested, what the rate asks for, and the 17 nodes, whichever is most. The rate's steps are compared as a
// float, which no NaN passes, and made a whole number only where they are most.
pub fn sample_count(duration: f64, requested: usize, alpha: f64) -> Option<usize>
    ensures { result ≡ Counts.sample_count duration requested alpha }
{
    let least = larger(requested, 17);
    if least > MAX_SAMPLES {
        return None;
    }
    let steps = duration / spacing(alpha);
    if steps > 99_999.0 {
        return None;
    }
    if steps > whole(least - 1) {
        Some(whole_above(steps) + 1)
    } else {
        Some(least)
    }
}

// Sample number index of a path: its duration, and its 17 nodes by rows as `rows` gives them. Of the inputs the index alone is checked.
pub fn sample(
    inertia: [[f64; 3]; 3],
    tolerance: f64,
    duration: f64,
    nodes: &[[f64; 22]; SOLVER_NODES],
    requested: usize,
    alpha: f64,
    index: usize,
) -> Result<PathSample, Refusal>
    ensures { result ≡ Samples.sample inertia tolerance duration nodes.now requested alpha index }
{
    let too_many = Refusal {
        number: 20,
        place: 0,
    };
    let count = sample_count(duration, requested, alpha).ok_or(too_many)?;
    if index >= count {
        return Err(Refusal {
            number: 20,
            place: 1,
        });
    }
    let t = time_of(duration, count, index);
    interpolate(inertia, tolerance, nodes, t, index)
}
