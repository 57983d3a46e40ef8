// Dense samples and their count beside what is stored. A sample's case: inertia, norm tolerance, duration, 17 nodes of 22 numbers, the count asked for,
// alpha, the index.
use cases::read::{at, real, reals, same_all};
use common::SOLVER_NODES;
use export::sampled::{slew_sample_count, slew_sample_path};

fn nodes(v: &[u64; 1024]) -> [[f64; 22]; SOLVER_NODES] {
    let mut rows = [[0.0; 22]; SOLVER_NODES];
    for (k, row) in rows.iter_mut().enumerate() {
        *row = reals(v, 11 + 22 * k);
    }
    rows
}

fn sample(v: &[u64; 1024]) -> bool {
    let mut x = [0.0; 14];
    let mut place: usize = 0;
    let refused = slew_sample_path(
        &reals(v, 0),
        real(v, 9),
        real(v, 10),
        &nodes(v),
        at(v, 385) as usize,
        real(v, 386),
        at(v, 387) as usize,
        &mut x,
        &mut place,
    );
    at(v, 388) == refused as u64 && at(v, 389) == place as u64 && same_all(v, 390, &x)
}

// A refused count is not written: 0 is stored.
fn count(v: &[u64; 1024]) -> bool {
    let mut n: usize = 0;
    let refused = slew_sample_count(real(v, 0), at(v, 1) as usize, real(v, 2), &mut n);
    at(v, 3) == refused as u64 && at(v, 4) == n as u64
}

pub fn holds(number: u64, v: &[u64; 1024]) -> bool {
    match number {
        350 => sample(v),
        351 => count(v),
        _ => false,
    }
}
