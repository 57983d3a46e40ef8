// Forward runs and residuals beside what is stored: what is declared, 37 numbers of the body, whether there is a slew limit, 193 of a decision.
use cases::declared::{counts, numbers};
use cases::read::{at, reals, same, same_all};
use common::{Decision, RESIDUAL_NUMBERS};
use export_runs::paths::{slew_reconstruct, slew_residuals};

// What both are asked of.
#[derive(Clone, Copy)]
struct Asked {
    counts: [usize; 11],
    numbers: [f64; 100],
    body: [f64; 37],
    limited: bool,
    decision: Decision,
}

fn read_asked(v: &[u64; 1024]) -> Asked {
    Asked {
        counts: counts(v),
        numbers: numbers(v),
        body: reals(v, 111),
        limited: at(v, 148) != 0,
        decision: reals(v, 149),
    }
}

// Whether the three words from 342 on are these: a refusal's number, place and runs.
fn told(v: &[u64; 1024], number: usize, place: usize, runs: usize) -> bool {
    at(v, 342) == number as u64 && at(v, 343) == place as u64 && at(v, 344) == runs as u64
}

fn reconstruct(v: &[u64; 1024]) -> bool {
    let a = read_asked(v);
    let mut nodes = [[0.0; 22]; 17];
    let mut defect = 0.0;
    let mut place: usize = 0;
    let mut runs: usize = 0;
    let refused = slew_reconstruct(
        &a.counts,
        &a.numbers,
        &a.body,
        a.limited,
        &a.decision,
        &mut nodes,
        &mut defect,
        &mut place,
        &mut runs,
    );
    told(v, refused, place, runs)
        && (refused != 0 || (same(v, 345, defect) && same_all(v, 346, nodes.as_flattened())))
}

fn residuals(v: &[u64; 1024]) -> bool {
    let a = read_asked(v);
    let mut x = [0.0; RESIDUAL_NUMBERS];
    let mut n: usize = 0;
    let mut place: usize = 0;
    let mut runs: usize = 0;
    let refused = slew_residuals(
        &a.counts,
        &a.numbers,
        &a.body,
        a.limited,
        &a.decision,
        &mut x,
        &mut n,
        &mut place,
        &mut runs,
    );
    told(v, refused, place, runs)
        && (refused != 0 || (at(v, 345) == n as u64 && same_all(v, 346, &x)))
}

pub fn holds(number: u64, v: &[u64; 1024]) -> bool {
    match number {
        200 => reconstruct(v),
        201 => residuals(v),
        _ => false,
    }
}
