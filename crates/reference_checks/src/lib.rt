// The checks of a reference: of each sample, of each step, of its start and its end. A comparison that a NaN enters refuses, and so does a limit that is not finite and above 0.
// Refusals: 10 no duration or no step, 11 a sine or cosine out of range, 13 power, 14 the attitude at the start or the end, 15 the rate there, 17 the torque box, 18 the slew
// limit, 19 a wheel's momentum, 29 a control over its actuator's limit, 30 the momentum balance. The place is the sample or the step.
#![tactic(auto)]

ghost use Rattle.std.specs.Prelude.{◌≡◌, ◌+◌, ◌≤◌};
ghost use Rattle.reference_checks.specs.Checks as Checks;
ghost use Rattle.reference_checks.specs.Promises as Promises;

use common::Refusal;
use geom::{Quat, is_positive, norm3, sub3};
use reference_motion::{
    Reference, Sample, body_vector, controls, fraction, mid_fraction, rate_at, required_momentum,
    rotation_vector, sample_at,
};

// The largest error of the momentum balance, over 1 + |H₀|, and of the attitude at the end.
const TOLERANCE: f64 = 1.0e-9;

// How the checks ended, and how many samples they evaluated: no Result, since these are counted beside a refusal too.
#[derive(Clone, Copy)]
pub struct Verdict {
    pub fate: Result<(), Refusal>,
    pub samples: usize,
}

// Whether a number is at most its limit in size, which is finite and above 0.
fn fits(x: f64, limit: f64) -> bool
    ensures { result ≡ Checks.fits x limit }
{
    is_positive(limit) & (float::abs(x) <= limit)
}

// Whether each of the first n numbers is at most its limit in size.
fn within(v: &[f64; 12], limits: &[f64; 12], n: usize) -> bool
    requires { n ≤ 12 }
    ensures { result ≡ Checks.within v.now limits.now n }
{
    let mut all = true;
    for i in 0..n {
        all &= fits(v[i], limits[i]);
    }
    all
}

// Whether the first n numbers of two rows are equal.
fn equal(v: &[f64; 12], u: &[f64; 12], n: usize) -> bool
    requires { n ≤ 12 }
    ensures { result ≡ Checks.equal v.now u.now n }
{
    let mut all = true;
    for i in 0..n {
        all &= v[i] == u[i];
    }
    all
}

// Whether two attitudes have equal parts.
fn equal_attitudes(a: Quat, b: Quat) -> bool
    ensures { result ≡ Checks.equal_attitudes a b }
{
    (a.w == b.w) & ((a.x == b.x) & ((a.y == b.y) & (a.z == b.z)))
}

// Whether a rate is zero.
fn at_rest(w: [f64; 3]) -> bool
    ensures { result ≡ Checks.at_rest_value w }
{
    (w[0] == 0.0) & ((w[1] == 0.0) & (w[2] == 0.0))
}

// Whether each part of a torque is at most its limit in size.
fn in_box(tau: [f64; 3], limit: [f64; 3]) -> bool
    ensures { result ≡ Checks.in_box tau limit }
{
    fits(tau[0], limit[0]) & (fits(tau[1], limit[1]) & fits(tau[2], limit[2]))
}

// Whether a rate is at most the slew limit, where there is one.
fn rate_fits(slew: Option<f64>, w: [f64; 3]) -> bool
    ensures { result ≡ Checks.rate_fits slew w }
{
    match slew {
        None => true,
        Some(limit) => fits(norm3(w), limit),
    }
}

// The wheels' momentum less what the conservation of the total asks for.
fn imbalance(r: Reference, s: Sample) -> [f64; 3]
    requires { r.count ≤ 12 }
    ensures { result ≡ Checks.imbalance r s }
{
    let held = body_vector(&r.axes, r.count, &s.h);
    sub3(held, required_momentum(r, s.rotation, s.w))
}

// Whether that is small.
fn is_balanced(r: Reference, s: Sample) -> bool
    requires { r.count ≤ 12 }
    ensures { result ≡ Checks.is_balanced r s }
{
    norm3(imbalance(r, s)) <= TOLERANCE * (1.0 + norm3(r.total))
}

// The wheels' momenta in sample k against their limits and the momentum balance.
fn check_momenta(r: Reference, s: Sample, k: usize) -> Result<(), Refusal>
    requires { r.count ≤ 12 }
    ensures { result ≡ Checks.check_momenta r s k }
{
    if !within(&s.h, &r.momentum_limits, r.count) {
        return Err(Refusal {
            number: 19,
            place: k,
        });
    }
    if !is_balanced(r, s) {
        return Err(Refusal {
            number: 30,
            place: k,
        });
    }
    Ok(())
}

// The same, where there are wheels.
fn check_wheels(r: Reference, s: Sample, k: usize) -> Result<(), Refusal>
    requires { r.count ≤ 12 }
    ensures { result ≡ Checks.check_wheels r s k }
{
    if !r.wheels {
        return Ok(());
    }
    check_momenta(r, s, k)
}

// Sample k, whose sine and cosine are in range, against the slew limit and the wheels' limits.
fn check_limits(r: Reference, s: Sample, k: usize) -> Result<(), Refusal>
    requires { r.count ≤ 12 }
    ensures { result ≡ Checks.check_limits r s k }
{
    if !rate_fits(r.slew, s.w) {
        return Err(Refusal {
            number: 18,
            place: k,
        });
    }
    check_wheels(r, s, k)
}

// Sample k.
pub fn check_sample(r: Reference, s: Sample, k: usize) -> Result<(), Refusal>
    requires { r.count ≤ 12 }
    ensures { result ≡ Checks.check_sample r s k }
{
    match s.fate {
        Err(why) => Err(Refusal { place: k, ..why }),
        Ok(()) => check_limits(r, s, k),
    }
}

// The wheels' powers under the controls u at the body's rate w: each control times the rate about its axis.
fn powers(axes: &[f64; 36], n: usize, u: [f64; 12], w: [f64; 3]) -> [f64; 12]
    requires { n ≤ 12 }
    ensures { result ≡ Checks.powers axes.now n u w }
{
    let mut out = u;
    for i in 0..n {
        out[i] *= w[0] * axes[3 * i] + w[1] * axes[3 * i + 1] + w[2] * axes[3 * i + 2];
    }
    out
}

// Whether the powers of step k, at the body's rate in the middle of the step, are within their limits.
fn powers_fit(r: Reference, u: [f64; 12], k: usize) -> bool
    requires { (r.count ≤ 12) × ((k ≤ 100000) × (r.steps ≤ 100000)) }
    ensures { result ≡ Checks.powers_fit r u k }
{
    let w = rate_at(r, mid_fraction(k, r.steps));
    within(&powers(&r.axes, r.count, u, w), &r.power_limits, r.count)
}

// The wheels' powers in step k; the problem declares none for thrusters.
fn check_powers(r: Reference, u: [f64; 12], k: usize) -> Result<(), Refusal>
    requires { (r.count ≤ 12) × ((k ≤ 100000) × (r.steps ≤ 100000)) }
    ensures { result ≡ Checks.check_powers r u k }
{
    if !r.wheels {
        return Ok(());
    }
    if !powers_fit(r, u, k) {
        return Err(Refusal {
            number: 13,
            place: k,
        });
    }
    Ok(())
}

// The controls of step k against their limits, their body torque against the box, the wheels' powers.
pub fn check_controls(r: Reference, u: [f64; 12], k: usize) -> Result<(), Refusal>
    requires { (r.count ≤ 12) × ((k ≤ 100000) × (r.steps ≤ 100000)) }
    ensures { result ≡ Checks.check_controls r u k }
{
    if !within(&u, &r.limits, r.count) {
        return Err(Refusal {
            number: 29,
            place: k,
        });
    }
    if !in_box(body_vector(&r.axes, r.count, &u), r.torque_limit) {
        return Err(Refusal {
            number: 17,
            place: k,
        });
    }
    check_powers(r, u, k)
}

// Step k, from the sample at its start to the one at its end, which is checked first.
pub fn check_step(r: Reference, k: usize, last: Sample, next: Sample) -> Result<(), Refusal>
    requires { (r.count ≤ 12) × ((k + 1 ≤ 100000) × (r.steps ≤ 100000)) }
    ensures { result ≡ Checks.check_step r k last next }
{
    check_sample(r, next, k + 1)?;
    check_controls(r, controls(r, k, last.h, next.h), k)
}

// Sample k.
pub fn sample_of(r: Reference, k: usize) -> Sample
    requires { (r.count ≤ 12) × ((k ≤ 100000) × (r.steps ≤ 100000)) }
    ensures { result ≡ Checks.sample_of r k }
{
    sample_at(r, fraction(k, r.steps))
}

// Sample 0 is the start: no rate, the attitude q0, the start momenta.
fn check_start(r: Reference, s: Sample) -> Result<(), Refusal>
    requires { r.count ≤ 12 }
    ensures { result ≡ Checks.check_start r s }
{
    if !at_rest(s.w) {
        return Err(Refusal {
            number: 15,
            place: 0,
        });
    }
    if !equal_attitudes(s.q, r.q0) {
        return Err(Refusal {
            number: 14,
            place: 0,
        });
    }
    if !equal(&s.h, &r.start, r.count) {
        return Err(Refusal {
            number: 30,
            place: 0,
        });
    }
    Ok(())
}

// Sample 0, as every sample and as the start.
fn check_first(r: Reference, s: Sample) -> Result<(), Refusal>
    requires { r.count ≤ 12 }
    ensures { result ≡ Checks.check_first r s }
{
    check_sample(r, s, 0)?;
    check_start(r, s)
}

// Every step in its order; the first refusal stays.
fn check_steps(r: Reference, first: Sample) -> Verdict
    requires { (r.count ≤ 12) × ((r.steps ≤ 100000) × (first ≡ Checks.sample_of r 0)) }
    ensures { Promises.Counted result (Checks.check_steps r) (r.steps + 1) }
{
    let mut last = first;
    for k in 0..r.steps {
        let next = sample_of(r, k + 1);
        if let Err(why) = check_step(r, k, last, next) {
            return Verdict {
                fate: Err(why),
                samples: k + 2,
            };
        }
        last = next;
    }
    Verdict {
        fate: Ok(()),
        samples: r.steps + 1,
    }
}

// The attitude q at the end against qf.
fn check_attitude(r: Reference, q: Quat) -> Result<(), Refusal>
    ensures { result ≡ Checks.check_attitude r q }
{
    let steps = r.steps;
    let Some((x, y, z)) = rotation_vector(q, r.qf) else {
        return Err(Refusal {
            number: 11,
            place: steps,
        });
    };
    if norm3([x, y, z]) <= TOLERANCE {
        Ok(())
    } else {
        Err(Refusal {
            number: 14,
            place: steps,
        })
    }
}

// The last sample is the end: no rate, the attitude qf.
fn check_end(r: Reference) -> Result<(), Refusal>
    requires { (r.count ≤ 12) × (r.steps ≤ 100000) }
    ensures { result ≡ Checks.check_end r }
{
    let steps = r.steps;
    let last = sample_of(r, steps);
    if !at_rest(last.w) {
        return Err(Refusal {
            number: 15,
            place: steps,
        });
    }
    check_attitude(r, last.q)
}

// Every step, then the end.
fn check_rest(r: Reference, first: Sample) -> Verdict
    requires { (r.count ≤ 12) × ((r.steps ≤ 100000) × (first ≡ Checks.sample_of r 0)) }
    ensures { Promises.Counted result (Checks.check_rest r) (r.steps + 2) }
{
    let verdict = check_steps(r, first);
    match verdict.fate {
        Err(_) => verdict,
        Ok(()) => Verdict {
            fate: check_end(r),
            samples: verdict.samples + 1,
        },
    }
}

// The start, every step with the sample at its end, the end.
fn check_samples(r: Reference) -> Verdict
    requires { (r.count ≤ 12) × (r.steps ≤ 100000) }
    ensures { Promises.Counted result (Checks.check_samples r) (r.steps + 2) }
{
    let first = sample_of(r, 0);
    match check_first(r, first) {
        Err(why) => Verdict {
            fate: Err(why),
            samples: 1,
        },
        Ok(()) => check_rest(r, first),
    }
}

// Whether the duration is finite and above 0 and there is a step.
fn times_fit(r: Reference) -> bool
    ensures { result ≡ Checks.times_fit r }
{
    is_positive(r.duration) & (0 < r.steps)
}

// The whole reference: its duration and step count, then every sample and step.
pub fn verify(r: Reference) -> Verdict
    requires { (r.count ≤ 12) × (r.steps ≤ 100000) }
    ensures { Promises.Verified r result }
{
    if !times_fit(r) {
        return Verdict {
            fate: Err(Refusal {
                number: 10,
                place: 0,
            }),
            samples: 0,
        };
    }
    check_samples(r)
}
