// Attitudes as four numbers, the scalar part first, vectors as three, tensors as nine by rows (`export_leaves::shapes`).
ghost use Rattle.std.specs.Prelude.{◌≡◌};
ghost use Rattle.geom.specs.Vec as Vec;
ghost use Rattle.geom.specs.Quats as Quats;
ghost use Rattle.geom.specs.Tensors as Tensors;
ghost use Rattle.geom.specs.Answers as Answers;
ghost use Rattle.export_leaves.specs.Outcomes.{Answered, of_quat};
ghost use Rattle.export_leaves.specs.Packed as Packed;

#[unsafe(no_mangle)]
pub extern "C" fn slew_quat_dot(a: &[f64; 4], b: &[f64; 4]) -> f64
    ensures { result ≡ Quats.dot_q (Packed.quat a.now) (Packed.quat b.now) }
{
    export_leaves::shapes::slew_quat_dot(a, b)
}

#[unsafe(no_mangle)]
pub extern "C" fn slew_quat_scale(q: &[f64; 4], factor: f64, out: &mut [f64; 4])
    ensures { out.new ≡ Packed.four (Quats.scale_q (Packed.quat q.now) factor) }
{
    export_leaves::shapes::slew_quat_scale(q, factor, out);
}

#[unsafe(no_mangle)]
pub extern "C" fn slew_quat_negate(q: &[f64; 4], out: &mut [f64; 4])
    ensures { out.new ≡ Packed.four (Quats.negate_q (Packed.quat q.now)) }
{
    export_leaves::shapes::slew_quat_negate(q, out);
}

#[unsafe(no_mangle)]
pub extern "C" fn slew_quat_conjugate(q: &[f64; 4], out: &mut [f64; 4])
    ensures { out.new ≡ Packed.four (Quats.conj (Packed.quat q.now)) }
{
    export_leaves::shapes::slew_quat_conjugate(q, out);
}

#[unsafe(no_mangle)]
pub extern "C" fn slew_quat_mul(a: &[f64; 4], b: &[f64; 4], out: &mut [f64; 4])
    ensures { out.new ≡ Packed.four (Quats.quat_mul (Packed.quat a.now) (Packed.quat b.now)) }
{
    export_leaves::shapes::slew_quat_mul(a, b, out);
}

#[unsafe(no_mangle)]
pub extern "C" fn slew_add3(a: &[f64; 3], b: &[f64; 3], out: &mut [f64; 3])
    ensures { out.new ≡ Vec.add3 a.now b.now }
{
    export_leaves::shapes::slew_add3(a, b, out);
}

#[unsafe(no_mangle)]
pub extern "C" fn slew_sub3(a: &[f64; 3], b: &[f64; 3], out: &mut [f64; 3])
    ensures { out.new ≡ Vec.sub3 a.now b.now }
{
    export_leaves::shapes::slew_sub3(a, b, out);
}

#[unsafe(no_mangle)]
pub extern "C" fn slew_scale3(v: &[f64; 3], s: f64, out: &mut [f64; 3])
    ensures { out.new ≡ Vec.scale3 v.now s }
{
    export_leaves::shapes::slew_scale3(v, s, out);
}

#[unsafe(no_mangle)]
pub extern "C" fn slew_dot3(a: &[f64; 3], b: &[f64; 3]) -> f64
    ensures { result ≡ Vec.dot3 a.now b.now }
{
    export_leaves::shapes::slew_dot3(a, b)
}

#[unsafe(no_mangle)]
pub extern "C" fn slew_cross(a: &[f64; 3], b: &[f64; 3], out: &mut [f64; 3])
    ensures { out.new ≡ Vec.cross a.now b.now }
{
    export_leaves::shapes::slew_cross(a, b, out);
}

#[unsafe(no_mangle)]
pub extern "C" fn slew_apply_tensor(j: &[f64; 9], w: &[f64; 3], out: &mut [f64; 3])
    ensures { out.new ≡ Vec.apply_tensor (Vec.tensor j.now) w.now }
{
    export_leaves::shapes::slew_apply_tensor(j, w, out);
}

#[unsafe(no_mangle)]
pub extern "C" fn slew_det3(j: &[f64; 9]) -> f64
    ensures { result ≡ Vec.det3 (Vec.tensor j.now) }
{
    export_leaves::shapes::slew_det3(j)
}

#[unsafe(no_mangle)]
pub extern "C" fn slew_euler_lhs(
    j: &[f64; 9],
    w_dot: &[f64; 3],
    w: &[f64; 3],
    h: &[f64; 3],
    out: &mut [f64; 3],
)
    ensures { out.new ≡ Vec.euler_lhs (Vec.tensor j.now) w_dot.now w.now h.now }
{
    export_leaves::shapes::slew_euler_lhs(j, w_dot, w, h, out);
}

#[unsafe(no_mangle)]
pub extern "C" fn slew_body_euler_torque(
    j: &[f64; 9],
    axis: &[f64; 3],
    alpha: f64,
    omega: f64,
    h: &[f64; 3],
    out: &mut [f64; 3],
)
    ensures { out.new ≡ Vec.body_euler_torque (Vec.tensor j.now) axis.now alpha omega h.now }
{
    export_leaves::shapes::slew_body_euler_torque(j, axis, alpha, omega, h, out);
}

#[unsafe(no_mangle)]
pub extern "C" fn slew_quat_normalized(q: &[f64; 4], tolerance: f64, out: &mut [f64; 4]) -> usize
    ensures { Answered (of_quat (Answers.of_normal (Quats.normalized tolerance (Packed.quat q.now)))) result out.old out.new }
{
    export_leaves::shapes::slew_quat_normalized(q, tolerance, out)
}

#[unsafe(no_mangle)]
pub extern "C" fn slew_exp_so3(phi: &[f64; 3], out: &mut [f64; 4]) -> usize
    ensures { Answered (of_quat (Answers.of_turned (Quats.exp_so3 phi.now))) result out.old out.new }
{
    export_leaves::shapes::slew_exp_so3(phi, out)
}

#[unsafe(no_mangle)]
pub extern "C" fn slew_log_so3(q: &[f64; 4], out: &mut [f64; 3]) -> usize
    ensures { Answered (Answers.of_rotation (Quats.log_so3 (Packed.quat q.now))) result out.old out.new }
{
    export_leaves::shapes::slew_log_so3(q, out)
}

#[unsafe(no_mangle)]
pub extern "C" fn slew_unit3(v: &[f64; 3], out: &mut [f64; 3]) -> usize
    ensures { Answered (Answers.of_axis (Quats.unit3 v.now)) result out.old out.new }
{
    export_leaves::shapes::slew_unit3(v, out)
}

#[unsafe(no_mangle)]
pub extern "C" fn slew_invert3(j: &[f64; 9], out: &mut [f64; 9]) -> usize
    ensures { Answered (Answers.of_inverse (Tensors.invert3 (Vec.tensor j.now))) result out.old out.new }
{
    export_leaves::shapes::slew_invert3(j, out)
}

#[unsafe(no_mangle)]
pub extern "C" fn slew_invert_spd(j: &[f64; 9], out: &mut [f64; 9]) -> usize
    ensures { Answered (Answers.of_inverse (Tensors.invert_spd (Vec.tensor j.now))) result out.old out.new }
{
    export_leaves::shapes::slew_invert_spd(j, out)
}

#[unsafe(no_mangle)]
pub extern "C" fn slew_is_spd(j: &[f64; 9]) -> bool
    ensures { result ≡ Tensors.is_spd (Vec.tensor j.now) }
{
    export_leaves::shapes::slew_is_spd(j)
}

#[unsafe(no_mangle)]
pub extern "C" fn slew_quat_is_finite(q: &[f64; 4]) -> bool
    ensures { result ≡ Quats.finite_q (Packed.quat q.now) }
{
    export_leaves::shapes::slew_quat_is_finite(q)
}

#[unsafe(no_mangle)]
pub extern "C" fn slew_quat_norm(q: &[f64; 4]) -> f64
    ensures { result ≡ Quats.norm_q (Packed.quat q.now) }
{
    export_leaves::shapes::slew_quat_norm(q)
}

#[unsafe(no_mangle)]
pub extern "C" fn slew_norm3(v: &[f64; 3]) -> f64
    ensures { result ≡ Quats.norm3 v.now }
{
    export_leaves::shapes::slew_norm3(v)
}

#[unsafe(no_mangle)]
pub extern "C" fn slew_torque_excess(torque: &[f64; 3], limit: &[f64; 3]) -> f64
    ensures { result ≡ Vec.torque_excess torque.now limit.now }
{
    export_leaves::shapes::slew_torque_excess(torque, limit)
}

#[unsafe(no_mangle)]
pub extern "C" fn slew_rest(omega: &[f64; 3], bound: f64) -> bool
    ensures { result ≡ Vec.rest omega.now bound }
{
    export_leaves::shapes::slew_rest(omega, bound)
}
