// geom: attitudes as four numbers, the scalar part first, vectors as three, tensors as nine by rows.
ghost use Rattle.std.specs.Prelude.{◌≡◌};
ghost use Rattle.geom.specs.Vec as Vec;
ghost use Rattle.geom.specs.Quats as Quats;
ghost use Rattle.geom.specs.Tensors as Tensors;
ghost use Rattle.geom.specs.Answers as Answers;
ghost use Rattle.export_leaves.specs.Outcomes as Outcomes;
ghost use Rattle.export_leaves.specs.Outcomes.{Answered, of_quat};
ghost use Rattle.export_leaves.specs.Packed as Packed;

use super::pack::{four, quat, three};
use common::Refusal;
use geom::Quat;

pub fn slew_quat_dot(a: &[f64; 4], b: &[f64; 4]) -> f64
    ensures { result ≡ Quats.dot_q (Packed.quat a.now) (Packed.quat b.now) }
{
    quat(a).dot(quat(b))
}

pub fn slew_quat_scale(q: &[f64; 4], factor: f64, out: &mut [f64; 4])
    ensures { out.new ≡ Packed.four (Quats.scale_q (Packed.quat q.now) factor) }
{
    *out = four(quat(q).scale(factor));
}

pub fn slew_quat_negate(q: &[f64; 4], out: &mut [f64; 4])
    ensures { out.new ≡ Packed.four (Quats.negate_q (Packed.quat q.now)) }
{
    *out = four(quat(q).negate());
}

pub fn slew_quat_conjugate(q: &[f64; 4], out: &mut [f64; 4])
    ensures { out.new ≡ Packed.four (Quats.conj (Packed.quat q.now)) }
{
    *out = four(quat(q).conjugate());
}

pub fn slew_quat_mul(a: &[f64; 4], b: &[f64; 4], out: &mut [f64; 4])
    ensures { out.new ≡ Packed.four (Quats.quat_mul (Packed.quat a.now) (Packed.quat b.now)) }
{
    *out = four(quat(a).mul(quat(b)));
}

pub fn slew_add3(a: &[f64; 3], b: &[f64; 3], out: &mut [f64; 3])
    ensures { out.new ≡ Vec.add3 a.now b.now }
{
    *out = geom::add3(*a, *b);
}

pub fn slew_sub3(a: &[f64; 3], b: &[f64; 3], out: &mut [f64; 3])
    ensures { out.new ≡ Vec.sub3 a.now b.now }
{
    *out = geom::sub3(*a, *b);
}

pub fn slew_scale3(v: &[f64; 3], s: f64, out: &mut [f64; 3])
    ensures { out.new ≡ Vec.scale3 v.now s }
{
    *out = geom::scale3(*v, s);
}

pub fn slew_dot3(a: &[f64; 3], b: &[f64; 3]) -> f64
    ensures { result ≡ Vec.dot3 a.now b.now }
{
    geom::dot3(*a, *b)
}

pub fn slew_cross(a: &[f64; 3], b: &[f64; 3], out: &mut [f64; 3])
    ensures { out.new ≡ Vec.cross a.now b.now }
{
    *out = geom::cross(*a, *b);
}

pub fn slew_apply_tensor(j: &[f64; 9], w: &[f64; 3], out: &mut [f64; 3])
    ensures { out.new ≡ Vec.apply_tensor (Vec.tensor j.now) w.now }
{
    let rate = *w;
    *out = geom::apply_tensor(geom::tensor(*j), rate);
}

pub fn slew_det3(j: &[f64; 9]) -> f64
    ensures { result ≡ Vec.det3 (Vec.tensor j.now) }
{
    geom::det3(geom::tensor(*j))
}

pub fn slew_euler_lhs(
    j: &[f64; 9],
    w_dot: &[f64; 3],
    w: &[f64; 3],
    h: &[f64; 3],
    out: &mut [f64; 3],
)
    ensures { out.new ≡ Vec.euler_lhs (Vec.tensor j.now) w_dot.now w.now h.now }
{
    let change = *w_dot;
    let rate = *w;
    let stored = *h;
    *out = geom::euler_lhs(geom::tensor(*j), change, rate, stored);
}

pub fn slew_body_euler_torque(
    j: &[f64; 9],
    axis: &[f64; 3],
    alpha: f64,
    omega: f64,
    h: &[f64; 3],
    out: &mut [f64; 3],
)
    ensures { out.new ≡ Vec.body_euler_torque (Vec.tensor j.now) axis.now alpha omega h.now }
{
    let about = *axis;
    let stored = *h;
    *out = geom::body_euler_torque(geom::tensor(*j), about, alpha, omega, stored);
}

// A refusal's number, or 0, and then the answer is put into `out`.
fn put_normal(n: Option<Quat>, out: &mut [f64; 4]) -> usize
    ensures { Answered (of_quat (Answers.of_normal n)) result out.old out.new }
{
    match n {
        Some(q) => {
            *out = four(q);
            0
        }
        None => 5,
    }
}

// A refusal's number, or 0, and then the answer is put into `out`.
pub fn put_turned(t: Option<Quat>, out: &mut [f64; 4]) -> usize
    ensures { Answered (of_quat (Answers.of_turned t)) result out.old out.new }
{
    match t {
        Some(q) => {
            *out = four(q);
            0
        }
        None => 11,
    }
}

// A refusal's number, or 0, and then the answer is put into `out`.
fn put_rotation(t: Option<(f64, f64, f64)>, out: &mut [f64; 3]) -> usize
    ensures { Answered (Answers.of_rotation t) result out.old out.new }
{
    match t {
        Some((x, y, z)) => {
            *out = three(x, y, z);
            0
        }
        None => 11,
    }
}

// A refusal's number, or 0, and then the answer is put into `out`.
fn put_axis(a: Option<(f64, f64, f64)>, out: &mut [f64; 3]) -> usize
    ensures { Answered (Answers.of_axis a) result out.old out.new }
{
    match a {
        Some((x, y, z)) => {
            *out = three(x, y, z);
            0
        }
        None => 3,
    }
}

// A refusal's number, or 0, and then the answer is put into `out`.
fn put_inverse(i: Result<[f64; 9], Refusal>, out: &mut [f64; 9]) -> usize
    ensures { Answered (Answers.of_inverse i) result out.old out.new }
{
    match i {
        Ok(m) => {
            *out = m;
            0
        }
        Err(refusal) => refusal.number,
    }
}

pub fn slew_quat_normalized(q: &[f64; 4], tolerance: f64, out: &mut [f64; 4]) -> usize
    ensures { Answered (of_quat (Answers.of_normal (Quats.normalized tolerance (Packed.quat q.now)))) result out.old out.new }
{
    put_normal(quat(q).normalized(tolerance), out)
}

pub fn slew_exp_so3(phi: &[f64; 3], out: &mut [f64; 4]) -> usize
    ensures { Answered (of_quat (Answers.of_turned (Quats.exp_so3 phi.now))) result out.old out.new }
{
    put_turned(geom::exp_so3(*phi), out)
}

pub fn slew_log_so3(q: &[f64; 4], out: &mut [f64; 3]) -> usize
    ensures { Answered (Answers.of_rotation (Quats.log_so3 (Packed.quat q.now))) result out.old out.new }
{
    put_rotation(geom::log_so3(quat(q)), out)
}

pub fn slew_unit3(v: &[f64; 3], out: &mut [f64; 3]) -> usize
    ensures { Answered (Answers.of_axis (Quats.unit3 v.now)) result out.old out.new }
{
    put_axis(geom::unit3(*v), out)
}

pub fn slew_invert3(j: &[f64; 9], out: &mut [f64; 9]) -> usize
    ensures { Answered (Answers.of_inverse (Tensors.invert3 (Vec.tensor j.now))) result out.old out.new }
{
    put_inverse(geom::invert3(geom::tensor(*j)), out)
}

pub fn slew_invert_spd(j: &[f64; 9], out: &mut [f64; 9]) -> usize
    ensures { Answered (Answers.of_inverse (Tensors.invert_spd (Vec.tensor j.now))) result out.old out.new }
{
    put_inverse(geom::invert_spd(geom::tensor(*j)), out)
}

pub fn slew_is_spd(j: &[f64; 9]) -> bool
    ensures { result ≡ Tensors.is_spd (Vec.tensor j.now) }
{
    geom::is_spd(geom::tensor(*j))
}

pub fn slew_quat_is_finite(q: &[f64; 4]) -> bool
    ensures { result ≡ Quats.finite_q (Packed.quat q.now) }
{
    quat(q).is_finite()
}

pub fn slew_quat_norm(q: &[f64; 4]) -> f64
    ensures { result ≡ Quats.norm_q (Packed.quat q.now) }
{
    quat(q).norm()
}

pub fn slew_norm3(v: &[f64; 3]) -> f64
    ensures { result ≡ Quats.norm3 v.now }
{
    geom::norm3(*v)
}

pub fn slew_torque_excess(torque: &[f64; 3], limit: &[f64; 3]) -> f64
    ensures { result ≡ Vec.torque_excess torque.now limit.now }
{
    geom::torque_excess(*torque, *limit)
}

pub fn slew_rest(omega: &[f64; 3], bound: f64) -> bool
    ensures { result ≡ Vec.rest omega.now bound }
{
    geom::rest(*omega, bound)
}
