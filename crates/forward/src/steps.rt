// One step of a forward run, in stages. Carried over from `reconstruct` of quatopsy-plan/src/scvx.rs (Apache-2.0), changed: the actuators' tables are
// lent, the pyramid's matrix that the singularity test makes is handed to the next step's torque, and a step is worked out in two parts, its dynamics and its
// attitude: dynamics wait for no attitude, so the machine works on one step's attitude and the next step's dynamics at once.
ghost use Rattle.std.specs.Prelude.{◌≡◌, ◌+◌, ◌≤◌, length};
ghost use Rattle.actuators.specs.Maps.{gimbals};
ghost use Rattle.control_rows.specs.Parts.{Sized};
ghost use Rattle.control_limits.specs.Limits.{power_excess};
ghost use Rattle.forward.specs.Steps as Steps;
ghost use Rattle.forward.specs.StepLaws.{AnglesOf, Made, rooted};
ghost use Rattle.forward.specs.StepPartInner as StepPartInner;
ghost use Rattle.std.specs.Float.{binary64};
ghost use Rattle.std.specs.Float.Ieee.{lt};
ghost use Rattle.float.specs.Sqrt.{sqrt};

use super::{Angles, Body, BodyState, Dynamics, GimbalStep, Stepped};
use actuators::CmgPyramid;
use common::Refusal;
use geom::Quat;

// A step that ends the run.
pub fn stop(number: usize, place: usize, s: BodyState) -> Stepped
    ensures { result ≡ Steps.stop number place s }
{
    let tau = [0.0; 3];
    Stepped {
        fate: Err(Refusal { number, place }),
        s: s,
        tau: tau,
        defect: 0.0,
    }
}

// The rate's change by Euler's equations.
pub fn rate_dot(j: [f64; 9], jinv: [f64; 9], w: [f64; 3], h: [f64; 3], tau: [f64; 3]) -> [f64; 3]
    ensures { result ≡ Steps.rate_dot j jinv w h tau }
{
    let gyro = geom::euler_lhs(geom::tensor(j), [0.0; 3], w, h);
    geom::apply_tensor(geom::tensor(jinv), geom::sub3(tau, gyro))
}

// The rate at the step's end.
pub fn rate_next(w: [f64; 3], wd: [f64; 3], dt: f64) -> [f64; 3]
    ensures { result ≡ Steps.rate_next w wd dt }
{
    geom::add3(w, geom::scale3(wd, dt))
}

// What Euler's equations miss, its length squared: a run takes one root, of the largest.
pub fn defect_square(j: [f64; 9], w: [f64; 3], h: [f64; 3], tau: [f64; 3], wd: [f64; 3]) -> f64
    ensures { sqrt binary64 result ≡ Steps.defect_of j w h tau wd }
{
    let missed = geom::sub3(geom::euler_lhs(geom::tensor(j), wd, w, h), tau);
    geom::dot3(missed, missed)
}

// The mean of both rates, times the time.
pub fn turn_of(w: [f64; 3], w2: [f64; 3], dt: f64) -> [f64; 3]
    ensures { result ≡ Steps.turn_of w w2 dt }
{
    geom::scale3(geom::scale3(geom::add3(w, w2), 0.5), dt)
}

// The gimbals after a time dt at the rates u.
pub fn gimbals_next(u: &[f64], d: [f64; 4], dt: f64) -> [f64; 4]
    requires { 4 ≤ length u.now }
    ensures { result ≡ Steps.gimbals_next u.now d dt }
{
    [
        d[0] + u[0] * dt,
        d[1] + u[1] * dt,
        d[2] + u[2] * dt,
        d[3] + u[3] * dt,
    ]
}

// The pyramid's gimbals after step k, its matrix there, and whether it is singular. Angles that stand in the known table are looked up.
pub fn step_pyramid(
    p: CmgPyramid,
    known: Angles,
    u: &[f64],
    d: [f64; 4],
    dt: f64,
    k: usize,
) -> Result<GimbalStep, Refusal>
    requires { (4 ≤ length u.now) × AnglesOf (Some p) known.skew known.lut.now }
    ensures { result ≡ Steps.step_gimbals (Some p) u.now d dt k }
{
    let e = gimbals_next(u, d, dt);
    let m = gimbal_angles::pyramid_known(known.skew.sine, known.skew.cosine, e, known.lut, k);
    match m {
        Err(_) => Err(Refusal {
            number: 11,
            place: k,
        }),
        Ok(a) => {
            if actuators::pyramid::singularity_of(a) < p.singularity_eps {
                return Err(Refusal {
                    number: 12,
                    place: k,
                });
            }
            Ok(GimbalStep { delta: e, a })
        }
    }
}

// The gimbals after step k; with no pyramid they stay.
pub fn step_gimbals(
    c: Option<CmgPyramid>,
    known: Angles,
    u: &[f64],
    d: [f64; 4],
    dt: f64,
    k: usize,
) -> Result<GimbalStep, Refusal>
    requires { (gimbals c ≤ length u.now) × AnglesOf c known.skew known.lut.now }
    ensures { result ≡ Steps.step_gimbals c u.now d dt k }
{
    match c {
        None => Ok(GimbalStep {
            delta: d,
            a: [0.0; 12],
        }),
        Some(p) => step_pyramid(p, known, u, d, dt, k),
    }
}

// Whether a wheel's power is over its limit by more than 1e-9. Without wheels none is, and no limit is looked at.
fn over_power(b: &Body, u: &[f64], w: [f64; 3]) -> bool
    requires { (b.now.rig.wheel_count ≤ 8) × (b.now.rig.wheel_count ≤ length u.now) }
    ensures { result ≡ lt Steps.slack (power_excess b.now.wheels b.now.powers b.now.rig.wheel_count u.now w) }
{
    let n = b.rig.wheel_count;
    if n == 0 {
        return false;
    }
    control_limits::power_excess(&b.wheels, b.powers, n, u, w) > 1.0e-9
}

// Dynamics whose gimbals or power refuse the step.
pub fn refuse_dynamics(number: usize, place: usize, l: Dynamics) -> Dynamics
    ensures { result ≡ StepPartInner.refuse_dynamics number place l }
{
    let tau = l.tau;
    let turn = l.turn;
    let s = l.s;
    let a = l.a;
    Dynamics {
        fate: Err(Refusal { number, place }),
        tau: tau,
        square: l.square,
        turn: turn,
        s: s,
        a: a,
    }
}

// Dynamics of these parts, which go on.
pub fn dynamics_from(
    tau: [f64; 3],
    square: f64,
    turn: [f64; 3],
    s: BodyState,
    a: [f64; 12],
) -> Dynamics
    ensures { result ≡ StepPartInner.dynamics_from tau square turn s a }
{
    Dynamics {
        fate: Ok(()),
        tau: tau,
        square: square,
        turn: turn,
        s: s,
        a: a,
    }
}

// Dynamics with the rate at their end, and the rest of the state as it was.
pub fn dynamics_at(
    tau: [f64; 3],
    square: f64,
    w2: [f64; 3],
    turn: [f64; 3],
    s: BodyState,
    a: [f64; 12],
) -> Dynamics
    ensures { result ≡ StepPartInner.dynamics_at tau square w2 turn s a }
{
    dynamics_from(tau, square, turn, BodyState { w: w2, ..s }, a)
}

// The dynamics l, whose torque, defect, turn and rate are known, with momenta, gimbals and power: of the step from s.
pub fn finish_dynamics(
    b: &Body,
    known: Angles,
    u: &[f64],
    k: usize,
    s: BodyState,
    l: Dynamics,
) -> Dynamics
    requires { (Sized b.now.rig (gimbals b.now.rig.cmgs) (length u.now)) × AnglesOf b.now.rig.cmgs known.skew known.lut.now }
    ensures { StepPartInner.Finished b.now u.now k s l result }
{
    let dt = b.frame.dt;
    let nw = b.rig.wheel_count;
    let at = nw + b.rig.thruster_count;
    let g = match step_gimbals(b.rig.cmgs, known, &u[at..], s.delta, dt, k) {
        Err(Refusal { number, place }) => return refuse_dynamics(number, place, l),
        Ok(g) => g,
    };
    if over_power(b, &u[0..nw], s.w) {
        return refuse_dynamics(13, k, l);
    }
    let hw = control_rows::momenta_next(nw, s.hw, &u[0..nw], dt);
    let h = control_rows::body_momentum(&b.wheels, nw, &hw);
    let delta = g.delta;
    let e = l.s;
    let s2 = BodyState { h, hw, delta, ..e };
    dynamics_from(l.tau, l.square, l.turn, s2, g.a)
}

// The dynamics of step k with the control row u, from the state s, whatever its attitude, whose pyramid matrix is a.
pub fn dynamics(
    b: &Body,
    known: Angles,
    u: &[f64],
    k: usize,
    s: BodyState,
    a: [f64; 12],
) -> Dynamics
    requires { (Sized b.now.rig (gimbals b.now.rig.cmgs) (length u.now)) × AnglesOf b.now.rig.cmgs known.skew known.lut.now }
    ensures { Made b.now.rig.cmgs s.delta a → StepPartInner.DynamicsOf b.now u.now k s result }
{
    let w = s.w;
    let h = s.h;
    let j = b.frame.j;
    let dt = b.frame.dt;
    let tau = control_rows::row_torque(b.rig, &b.wheels, &b.thrusters, u, w, h, a);
    let wd = rate_dot(j, b.frame.jinv, w, h, tau);
    let w2 = rate_next(w, wd, dt);
    let square = defect_square(j, w, h, tau, wd);
    let turn = turn_of(w, w2, dt);
    let l = dynamics_at(tau, square, w2, turn, s, a);
    finish_dynamics(b, known, u, k, s, l)
}

// The attitude q after the turn of step k, whose quaternion is made: refusal 11 where there is none, 5 where the product has no unit length.
pub fn attitude(q: Quat, turned: Option<Quat>, tolerance: f64, k: usize) -> Result<Quat, Refusal>
    ensures { result ≡ StepPartInner.turned_to turned tolerance q k }
{
    let Some(e) = turned else {
        return Err(Refusal {
            number: 11,
            place: k,
        });
    };
    q.mul(e).normalized(tolerance).ok_or(Refusal {
        number: 5,
        place: 2,
    })
}

// The step from s that its dynamics and the attitude q2 give; its defect stays squared.
pub fn joined_at(q2: Quat, l: Dynamics, s: BodyState) -> Stepped
    ensures { rooted result ≡ StepPartInner.joined_at l.fate q2 l s }
{
    let fate = l.fate;
    match fate {
        Err(Refusal { number, place }) => stop(number, place, s),
        Ok(()) => {
            let tau = l.tau;
            let e = l.s;
            let w = e.w;
            let h = e.h;
            let hw = e.hw;
            let delta = e.delta;
            let s2 = BodyState {
                q: q2,
                w: w,
                h: h,
                hw: hw,
                delta: delta,
            };
            Stepped {
                fate: Ok(()),
                s: s2,
                tau: tau,
                defect: l.square,
            }
        }
    }
}

// A step from s, of its dynamics and its attitude.
pub fn join(t: Result<Quat, Refusal>, l: Dynamics, s: BodyState) -> Stepped
    ensures { rooted result ≡ StepPartInner.joined t l s }
{
    match t {
        Err(Refusal { number, place }) => stop(number, place, s),
        Ok(q2) => joined_at(q2, l, s),
    }
}
