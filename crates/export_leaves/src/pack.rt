// Records and arrays of the numbers that the interface takes and gives, and the numbers of a refusal.
ghost use Rattle.std.specs.Prelude.{◌≡◌};
ghost use Rattle.export_leaves.specs.Outcomes as Outcomes;
ghost use Rattle.export_leaves.specs.Packed as Packed;

use common::Refusal;
use geom::Quat;
use profile::Profile;

// The attitude of four numbers.
pub fn quat(q: &[f64; 4]) -> Quat
    ensures { result ≡ Packed.quat q.now }
{
    Quat::new(q[0], q[1], q[2], q[3])
}

// Four numbers of an attitude.
pub fn four(q: Quat) -> [f64; 4]
    ensures { result ≡ Packed.four q }
{
    [q.w, q.x, q.y, q.z]
}

// Three numbers in their order.
pub fn three(x: f64, y: f64, z: f64) -> [f64; 3]
    ensures { result ≡ Packed.three x y z }
{
    [x, y, z]
}

// Two numbers in their order.
pub fn two(a: f64, b: f64) -> [f64; 2]
    ensures { result ≡ Packed.two a b }
{
    [a, b]
}

// An optional limit.
pub fn limit_of(with: bool, x: f64) -> Option<f64>
    ensures { result ≡ Packed.limit with x }
{
    if with { Some(x) } else { None }
}

// The profile of its numbers: theta, alpha, t_acc, t_coast, duration, omega_peak, the axis, the inertia by rows, q0.
pub fn profile_of(v: &[f64; 22]) -> Profile
    ensures { result ≡ Packed.profile v.now }
{
    let axis = [v[6], v[7], v[8]];
    let inertia = [v[9], v[10], v[11], v[12], v[13], v[14], v[15], v[16], v[17]];
    let q0 = Quat {
        w: v[18],
        x: v[19],
        y: v[20],
        z: v[21],
    };
    Profile {
        theta: v[0],
        alpha: v[1],
        t_acc: v[2],
        t_coast: v[3],
        duration: v[4],
        omega_peak: v[5],
        axis: axis,
        inertia: inertia,
        q0: q0,
    }
}

// The numbers of a profile.
pub fn numbers(p: Profile) -> [f64; 22]
    ensures { result ≡ Packed.numbers p }
{
    let a = p.axis;
    let j = p.inertia;
    let q = p.q0;
    [
        p.theta,
        p.alpha,
        p.t_acc,
        p.t_coast,
        p.duration,
        p.omega_peak,
        a[0],
        a[1],
        a[2],
        j[0],
        j[1],
        j[2],
        j[3],
        j[4],
        j[5],
        j[6],
        j[7],
        j[8],
        q.w,
        q.x,
        q.y,
        q.z,
    ]
}

// A refusal's number, or 0.
pub fn number_of(f: Result<(), Refusal>) -> usize
    ensures { result ≡ Outcomes.fate_number f }
{
    match f {
        Ok(()) => 0,
        Err(refusal) => refusal.number,
    }
}

// A refusal's place, or 0.
pub fn place_of(f: Result<(), Refusal>) -> usize
    ensures { result ≡ Outcomes.fate_place f }
{
    match f {
        Ok(()) => 0,
        Err(refusal) => refusal.place,
    }
}
