// The eigenaxis profile of a slew and the seed that is sampled from it. Carried over from quatopsy-plan/src/lib.rs and `sample_seed` of
// src/scvx.rs (Apache-2.0), changed: refusals are numbers, the tie tolerance is an argument, the seed's two closures are the profile's own functions.
#![tactic(auto)]

ghost use Rattle.std.specs.Prelude.{◌≡◌, ◌+◌, ◌*◌, ◌<◌, ◌++◌, take};
ghost use Rattle.profile.specs.Profiles as Profiles;
ghost use Rattle.profile.specs.Seeds as Seeds;

use common::{Refusal, SOLVER_NODES};
use geom::Quat;

// A turn by theta about an axis: acceleration for t_acc, a coast for t_coast, deceleration for t_acc. The inertia is nine numbers, by rows.
#[derive(Clone, Copy)]
pub struct Profile {
    pub theta: f64,
    pub alpha: f64,
    pub t_acc: f64,
    pub t_coast: f64,
    pub duration: f64,
    pub omega_peak: f64,
    pub axis: [f64; 3],
    pub inertia: [f64; 9],
    pub q0: Quat,
}

// What `bang_coast_bang` answers: a profile, or a refusal beside a profile of zeros.
#[derive(Clone, Copy)]
pub struct Profiled {
    pub fate: Result<(), Refusal>,
    pub profile: Profile,
}

impl Profile {
    pub fn angle(self, t: f64) -> f64
        ensures { result ≡ Profiles.angle self t }
    {
        let t_dec = self.t_acc + self.t_coast;
        if t <= self.t_acc {
            0.5 * self.alpha * t * t
        } else if t <= t_dec {
            0.5 * self.alpha * self.t_acc * self.t_acc + self.omega_peak * (t - self.t_acc)
        } else {
            let td = t - t_dec;
            self.theta - 0.5 * self.alpha * (self.t_acc - td) * (self.t_acc - td)
        }
    }

    pub fn rate(self, t: f64) -> f64
        ensures { result ≡ Profiles.rate self t }
    {
        let t_dec = self.t_acc + self.t_coast;
        if t <= self.t_acc {
            self.alpha * t
        } else if t <= t_dec {
            self.omega_peak
        } else {
            self.omega_peak - self.alpha * (t - t_dec)
        }
    }

    pub fn alpha_signed(self, t: f64) -> f64
        ensures { result ≡ Profiles.alpha_signed self t }
    {
        let t_dec = self.t_acc + self.t_coast;
        if t < self.t_acc {
            self.alpha
        } else if t < t_dec {
            0.0
        } else if t <= self.duration {
            -self.alpha
        } else {
            0.0
        }
    }

    pub fn omega_vec(self, t: f64) -> [f64; 3]
        ensures { result ≡ Profiles.omega_vec self t }
    {
        let axis = self.axis;
        geom::scale3(axis, self.rate(t))
    }

    pub fn torque_vec(self, t: f64) -> [f64; 3]
        ensures { result ≡ Profiles.torque_vec self t }
    {
        let axis = self.axis;
        let inertia = self.inertia;
        let j = geom::tensor(inertia);
        geom::body_euler_torque(j, axis, self.alpha_signed(t), self.rate(t), [0.0; 3])
    }

    pub fn quaternion(self, t: f64) -> Option<Quat>
        ensures { result ≡ Profiles.quaternion self t }
    {
        let axis = self.axis;
        let q0 = self.q0;
        let half = angles::sin_cos(0.5 * self.angle(t));
        match half {
            Some((s, c)) => Some(q0.mul(Quat {
                w: c,
                x: axis[0] * s,
                y: axis[1] * s,
                z: axis[2] * s,
            })),
            None => None,
        }
    }
}

// The acceleration so far, or what one axis of the torque box allows.
fn box_turn(alpha: f64, jn: f64, limit: f64) -> f64
    ensures { result ≡ Profiles.box_turn alpha jn limit }
{
    let size = float::abs(jn);
    if size <= 1.0e-15 {
        alpha
    } else {
        float::min(alpha, limit / size)
    }
}

fn acceleration_of(alpha: f64) -> Option<f64>
    ensures { result ≡ Profiles.acceleration_of alpha }
{
    if geom::is_positive(alpha) {
        Some(alpha)
    } else {
        None
    }
}

// The acceleration about an axis that the torque limits allow.
pub fn alpha_from_box(inertia: [[f64; 3]; 3], axis: [f64; 3], torque_limit: [f64; 3]) -> Option<f64>
    ensures { result ≡ Profiles.alpha_from_box inertia axis torque_limit }
{
    let jn = geom::apply_tensor(inertia, axis);
    let a = box_turn(
        f64::from_bits(0x7ff0_0000_0000_0000),
        jn[0],
        torque_limit[0],
    );
    let b = box_turn(a, jn[1], torque_limit[1]);
    acceleration_of(box_turn(b, jn[2], torque_limit[2]))
}

fn coasting(t_acc: f64, t_coast: f64, limit: f64) -> Result<(f64, f64, f64), Refusal>
    ensures { result ≡ Profiles.coasting t_acc t_coast limit }
{
    if !float::is_finite(t_coast) | (t_coast < 0.0) {
        Err(Refusal {
            number: 7,
            place: 2,
        })
    } else {
        Ok((t_acc, t_coast, limit))
    }
}

// The switch times under a slew limit. A planner has checked the limit before; alone, a limit that is not finite and above 0 is refusal 4.
fn limited(
    theta: f64,
    alpha: f64,
    bang: f64,
    peak: f64,
    limit: f64,
) -> Result<(f64, f64, f64), Refusal>
    ensures { result ≡ Profiles.limited theta alpha bang peak limit }
{
    if !geom::is_positive(limit) {
        return Err(Refusal {
            number: 4,
            place: 0,
        });
    }
    if peak <= limit {
        return Ok((bang, 0.0, peak));
    }
    coasting(
        limit / alpha,
        (theta - limit * limit / alpha) / limit,
        limit,
    )
}

pub fn switch_times(
    theta: f64,
    alpha: f64,
    slew_limit: Option<f64>,
) -> Result<(f64, f64, f64), Refusal>
    ensures { result ≡ Profiles.switch_times theta alpha slew_limit }
{
    let bang = float::sqrt(theta / alpha);
    match slew_limit {
        None => Ok((bang, 0.0, alpha * bang)),
        Some(limit) => limited(theta, alpha, bang, alpha * bang, limit),
    }
}

fn refused(fate: Result<(), Refusal>) -> Profiled
    ensures { result ≡ Profiles.refused fate }
{
    let axis = [0.0; 3];
    let inertia = [0.0; 9];
    let q0 = Quat {
        w: 0.0,
        x: 0.0,
        y: 0.0,
        z: 0.0,
    };
    let profile = Profile {
        theta: 0.0,
        alpha: 0.0,
        t_acc: 0.0,
        t_coast: 0.0,
        duration: 0.0,
        omega_peak: 0.0,
        axis: axis,
        inertia: inertia,
        q0: q0,
    };
    Profiled {
        fate: fate,
        profile: profile,
    }
}

fn with_switches(
    q0: Quat,
    j: [[f64; 3]; 3],
    axis: [f64; 3],
    theta: f64,
    alpha: f64,
    times: Result<(f64, f64, f64), Refusal>,
) -> Profiled
    ensures { result ≡ Profiles.with_switches q0 j axis theta alpha times }
{
    match times {
        Err(refusal) => refused(Err(refusal)),
        Ok((t_acc, t_coast, omega_peak)) => {
            let inertia = geom::flatten(j);
            let profile = Profile {
                theta: theta,
                alpha: alpha,
                t_acc: t_acc,
                t_coast: t_coast,
                duration: 2.0 * t_acc + t_coast,
                omega_peak: omega_peak,
                axis: axis,
                inertia: inertia,
                q0: q0,
            };
            Profiled {
                fate: Ok(()),
                profile: profile,
            }
        }
    }
}

fn with_alpha(
    q0: Quat,
    j: [[f64; 3]; 3],
    axis: [f64; 3],
    theta: f64,
    slew: Option<f64>,
    a: Option<f64>,
) -> Profiled
    ensures { result ≡ Profiles.with_alpha q0 j axis theta slew a }
{
    match a {
        None => refused(Err(Refusal {
            number: 7,
            place: 2,
        })),
        Some(alpha) => with_switches(q0, j, axis, theta, alpha, switch_times(theta, alpha, slew)),
    }
}

fn with_theta(
    q0: Quat,
    j: [[f64; 3]; 3],
    axis: [f64; 3],
    theta: f64,
    limit: [f64; 3],
    slew: Option<f64>,
) -> Profiled
    ensures { result ≡ Profiles.with_theta q0 j axis theta limit slew }
{
    if !geom::is_positive(theta) {
        return refused(Err(Refusal {
            number: 7,
            place: 0,
        }));
    }
    with_alpha(q0, j, axis, theta, slew, alpha_from_box(j, axis, limit))
}

// The attitude qf seen from q0, the shorter way round.
fn relative(q0: Quat, qf: Quat) -> Quat
    ensures { result ≡ Profiles.relative q0 qf }
{
    if q0.dot(qf) < 0.0 {
        q0.conjugate().mul(qf.negate())
    } else {
        q0.conjugate().mul(qf)
    }
}

fn with_half(
    q0: Quat,
    j: [[f64; 3]; 3],
    axis: [f64; 3],
    limit: [f64; 3],
    slew: Option<f64>,
    half: Option<f64>,
) -> Profiled
    ensures { result ≡ Profiles.with_half q0 j axis limit slew half }
{
    match half {
        None => refused(Err(Refusal {
            number: 11,
            place: 0,
        })),
        Some(a) => with_theta(q0, j, axis, 2.0 * a, limit, slew),
    }
}

// The profile from q0 to qf: no zero angle, no half turn (whose axis is not unique), an angle, an acceleration, switch times.
pub fn bang_coast_bang(
    q0: Quat,
    qf: Quat,
    inertia: [[f64; 3]; 3],
    torque_limit: [f64; 3],
    slew: Option<f64>,
    tie: f64,
) -> Profiled
    ensures { result ≡ Profiles.bang_coast_bang q0 qf inertia torque_limit slew tie }
{
    let rel = relative(q0, qf);
    let n = geom::norm3([rel.x, rel.y, rel.z]);
    if n < 1.0e-18 {
        return refused(Err(Refusal {
            number: 7,
            place: 0,
        }));
    }
    let dotted = float::clamp(rel.w, -1.0, 1.0);
    if float::abs(dotted) <= tie {
        return refused(Err(Refusal {
            number: 7,
            place: 1,
        }));
    }
    let axis = [rel.x / n, rel.y / n, rel.z / n];
    with_half(q0, inertia, axis, torque_limit, slew, angles::acos(dotted))
}

// A seed of 17 nodes, three numbers a node.
#[derive(Clone, Copy)]
pub struct Seed {
    pub duration: f64,
    pub rates: [f64; 51],
    pub torques: [f64; 51],
}

// The time of node i.
fn node_time(duration: f64, i: usize) -> f64
    requires { i < 17 }
    ensures { result ≡ Seeds.node_time duration i }
{
    let k = i as u32;
    duration * (k as f64) / 16.0
}

// The numbers with w as node i.
fn with_node(v: [f64; 51], i: usize, w: [f64; 3]) -> [f64; 51]
    requires { i < 17 }
    ensures { take (3 * i + 3) result ≡ take (3 * i) v ++ w }
{
    let mut out = v;
    out[3 * i] = w[0];
    out[3 * i + 1] = w[1];
    out[3 * i + 2] = w[2];
    out
}

// The seed of our own entry: the profile at duration × i / 16, its body rates and its body torques node by node.
pub fn sample_seed(p: Profile) -> Seed
    ensures { result ≡ Seeds.sample_seed p }
{
    let duration = p.duration;
    let mut rates = [0.0; 51];
    let mut torques = [0.0; 51];
    for i in 0..SOLVER_NODES {
        let t = node_time(duration, i);
        let next_rates = with_node(rates, i, p.omega_vec(t));
        rates = next_rates;
        let next_torques = with_node(torques, i, p.torque_vec(t));
        torques = next_torques;
    }
    Seed {
        duration,
        rates,
        torques,
    }
}
