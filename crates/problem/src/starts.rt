// Check 22: the momenta that the wheels start with, each beside its wheel's limit.
ghost use Rattle.std.specs.Prelude.{◌≡◌, ◌<◌};
ghost use Rattle.problem.specs.Starts as Starts;

use super::Momenta;
use common::Refusal;
use float::{abs, is_finite};

// Whether a start is finite and in size at most its wheel's limit.
pub fn start_fits(limit: f64, x: f64) -> bool
    ensures { result ≡ Starts.start_fits_value limit x }
{
    is_finite(x) & !(abs(x) > limit)
}

// Whether wheel k is one of the n declared ones and has a start that fits.
fn wheel_starts(n: usize, limits: [f64; 8], m: Momenta, k: usize) -> bool
    requires { k < 8 }
    ensures { result ≡ Starts.wheel_starts n limits m k }
{
    let at = m.at;
    (k < n) & ((k < m.count) & start_fits(limits[k], at[k]))
}

// How many wheels, from the first on, do.
fn leading_starts(n: usize, limits: [f64; 8], m: Momenta) -> usize
    ensures { result ≡ Starts.leading_starts n limits m }
{
    for k in 0..8 {
        if !wheel_starts(n, limits, m, k) {
            return k;
        }
    }
    8
}

// Check 22 of n declared wheels with these momentum limits.
pub fn check_starts(n: usize, limits: [f64; 8], m: Momenta) -> Result<(), Refusal>
    ensures { result ≡ Starts.check_starts n limits m }
{
    let k = leading_starts(n, limits, m);
    if (k == n) & (k == m.count) {
        Ok(())
    } else {
        Err(Refusal {
            number: 22,
            place: k,
        })
    }
}

// The start x of wheel k, or +0 past the n wheels.
fn place_start(n: usize, k: usize, x: f64) -> f64
    ensures { result ≡ Starts.place_start n k x }
{
    if k < n { x } else { 0.0 }
}

// The starts of n wheels, +0 past them.
pub fn placed(n: usize, at: [f64; 8]) -> [f64; 8]
    ensures { result ≡ Starts.placed n at }
{
    [
        place_start(n, 0, at[0]),
        place_start(n, 1, at[1]),
        place_start(n, 2, at[2]),
        place_start(n, 3, at[3]),
        place_start(n, 4, at[4]),
        place_start(n, 5, at[5]),
        place_start(n, 6, at[6]),
        place_start(n, 7, at[7]),
    ]
}
