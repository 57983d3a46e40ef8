// Actuators and rows of controls beside what is stored. What a user declares begins a case: eleven counts, a hundred numbers; a row is its length and 24
// numbers, zeros past its length.
ghost use Rattle.std.specs.Prelude.{◌≤◌};

use cases::declared::{counts, numbers};
use cases::read::{at, real, reals, same, same_all, same_outcome};
use export_runs::rigs::{
    slew_allocate_body_torque, slew_body_momentum, slew_body_torque, slew_control_dim,
    slew_momentum_excess, slew_power_excess, slew_prepare, slew_project_controls, slew_pyramid_a,
    slew_singularity, slew_wheel_momentum_rates,
};

// How long the row is: at most 24.
fn width(v: &[u64; 1024]) -> usize
    ensures { result ≤ 24 }
{
    at(v, 111).min(24) as usize
}

// The case's row: its first `width` numbers count.
fn row(v: &[u64; 1024]) -> [f64; 24] {
    reals(v, 112)
}

fn prepare(v: &[u64; 1024]) -> bool {
    let mut wheels = [0.0; 24];
    let mut thrusters = [0.0; 36];
    let mut place: usize = 0;
    let refused = slew_prepare(
        &counts(v),
        &numbers(v),
        &mut wheels,
        &mut thrusters,
        &mut place,
    );
    let told = at(v, 111) == refused as u64 && at(v, 112) == place as u64;
    told && same_all(v, 113, &wheels) && same_all(v, 137, &thrusters)
}

fn body_torque(v: &[u64; 1024]) -> bool {
    let u = &row(v)[..width(v)];
    let mut x = [0.0; 3];
    let refused = slew_body_torque(
        &counts(v),
        &numbers(v),
        u,
        &reals(v, 136),
        &reals(v, 139),
        &reals(v, 142),
        &mut x,
    );
    same_outcome(v, 146, refused, &x)
}

// A projected row is stored with the zeros past its length.
fn project_controls(v: &[u64; 1024]) -> bool {
    let mut u = row(v);
    slew_project_controls(&counts(v), &numbers(v), &mut u[..width(v)], &reals(v, 136));
    at(v, 139) == 0 && same_all(v, 140, &u)
}

fn allocate_body_torque(v: &[u64; 1024]) -> bool {
    let mut x = [0.0; 20];
    let mut place: usize = 0;
    let tau = reals(v, 111);
    let refused = slew_allocate_body_torque(&counts(v), &numbers(v), &tau, &mut x, &mut place);
    same_outcome(v, 114, refused, &x)
}

fn singularity(v: &[u64; 1024]) -> bool {
    let mut x = 0.0;
    let refused = slew_singularity(&counts(v), &numbers(v), &reals(v, 111), &mut x);
    same_outcome(v, 115, refused, &[x])
}

fn power_excess(v: &[u64; 1024]) -> bool {
    let u = &row(v)[..width(v)];
    let x = slew_power_excess(&counts(v), &numbers(v), u, &reals(v, 136));
    at(v, 139) == 0 && same(v, 140, x)
}

fn wheel_momenta(v: &[u64; 1024]) -> bool {
    let u = &row(v)[..width(v)];
    let c = counts(v);
    let d = numbers(v);
    let mut x = [0.0; 3];
    slew_body_momentum(&c, &d, u, &mut x);
    at(v, 136) == 0 && same(v, 137, slew_momentum_excess(&c, &d, u)) && same_all(v, 138, &x)
}

fn wheel_momentum_rates(v: &[u64; 1024]) -> bool {
    let u = &row(v)[..width(v)];
    let mut x = [0.0; 8];
    slew_wheel_momentum_rates(&counts(v), &numbers(v), u, &mut x);
    at(v, 136) == 0 && same_all(v, 137, &x)
}

fn control_dim(v: &[u64; 1024]) -> bool {
    at(v, 111) == slew_control_dim(&counts(v), &numbers(v)) as u64
}

fn pyramid_a(v: &[u64; 1024]) -> bool {
    let mut x = [0.0; 12];
    let refused = slew_pyramid_a(real(v, 0), &reals(v, 1), &mut x);
    same_outcome(v, 5, refused, &x)
}

pub fn holds(number: u64, v: &[u64; 1024]) -> bool {
    match number {
        100 => prepare(v),
        101 => body_torque(v),
        102 => project_controls(v),
        103 => allocate_body_torque(v),
        104 => singularity(v),
        105 => power_excess(v),
        106 => wheel_momenta(v),
        107 => wheel_momentum_rates(v),
        108 => control_dim(v),
        109 => pyramid_a(v),
        _ => false,
    }
}
