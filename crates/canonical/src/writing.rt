// The canonical text of a problem, put into a lent buffer. Past the buffer's end nothing is put.
ghost use Rattle.std.specs.Prelude.{◌≡◌, [], ◌∷◌, ◌+◌, ◌*◌, ◌≤◌, ◌<◌, ◌^◌, length};
ghost use Rattle.text_writer.specs.Puts.{Puts};
ghost use Rattle.canonical_laws.specs.Pieces as Pieces;
ghost use Rattle.canonical.specs.Writing as Writing;
ghost use Rattle.canonical.specs.Writing.{PutsLine};

use actuators::{Actuators, CmgPyramid, Thruster, Wheel};
use geom::Quat;
use problem::{Problem, Weights};
use text_writer::put::{put_all, put_word, put_words};

// A line: what it begins with, n floats, what it ends with.
fn put_line(b: &mut [u8], at: usize, head: &[u8], v: &[f64], n: usize, tail: &[u8]) -> usize
    requires { (at < 2 ^ 29) × ((length head.now ≤ 64) × ((length tail.now ≤ 64) × ((n ≤ 9) × (n ≤ length v.now)))) }
    ensures { PutsLine b.old at head.now n (Pieces.floats n v.now) tail.now b.new result }
{
    let i = put_all(b, at, head);
    let j = put_words(b, i, v, 0, n);
    put_all(b, j, tail)
}

// `none` or a limit, after a blank.
fn put_limit(b: &mut [u8], at: usize, limit: Option<f64>) -> usize
    requires { at < 2 ^ 30 }
    ensures { Puts b.old at (Pieces.flat (Pieces.limit limit ∷ [])) 17 b.new result }
{
    match limit {
        None => put_all(b, at, b" none"),
        Some(x) => put_word(b, at, x),
    }
}

// A wheel, after the line feed that ends the line before it.
fn put_wheel(b: &mut [u8], at: usize, w: Wheel) -> usize
    requires { at < 2 ^ 28 }
    ensures { Puts b.old at (Writing.entry_text (Pieces.Entry.wheel w)) 112 b.new result }
{
    let axis = w.axis;
    let power = w.max_power_w;
    let v = [
        axis[0],
        axis[1],
        axis[2],
        w.max_torque_nm,
        w.max_momentum_nms,
    ];
    let i = put_line(b, at, b"\n  (wheel", &v, 5, b"");
    let j = put_limit(b, i, power);
    put_all(b, j, b")")
}

// A thruster, after the line feed that ends the line before it.
fn put_thruster(b: &mut [u8], at: usize, t: Thruster) -> usize
    requires { at < 2 ^ 28 }
    ensures { Puts b.old at (Writing.entry_text (Pieces.Entry.thruster t)) 112 b.new result }
{
    let axis = t.torque_axis;
    let v = [axis[0], axis[1], axis[2], t.max_torque_nm];
    put_line(b, at, b"\n  (thruster", &v, 4, b")")
}

// A pyramid, after the line feed that ends the line before it.
fn put_pyramid(b: &mut [u8], at: usize, p: CmgPyramid) -> usize
    requires { at < 2 ^ 28 }
    ensures { Puts b.old at (Writing.entry_text (Pieces.Entry.pyramid p)) 112 b.new result }
{
    let v = [
        p.skew_rad,
        p.wheel_momentum_nms,
        p.max_gimbal_rate_rad_s,
        p.singularity_eps,
    ];
    put_line(b, at, b"\n  (cmg", &v, 4, b")")
}

// The pyramid, if there is one.
fn put_gyros(b: &mut [u8], at: usize, cmgs: Option<CmgPyramid>) -> usize
    requires { at < 2 ^ 28 }
    ensures { Puts b.old at (Writing.gyros_text cmgs) 112 b.new result }
{
    match cmgs {
        None => at,
        Some(p) => put_pyramid(b, at, p),
    }
}

// The first n wheels.
fn put_wheels(b: &mut [u8], at: usize, wheels: [Wheel; 8], n: usize) -> usize
    requires { (at < 2 ^ 27) × (n ≤ 8) }
    ensures { Puts b.old at (Writing.wheels_text wheels n) (112 * n) b.new result }
{
    let mut i = at;
    for w in &wheels[..n] {
        i = put_wheel(b, i, *w);
    }
    i
}

// The first n thrusters. One function over both kinds would take what puts an item as a closure, whose contract is longer than this loop.
fn put_thrusters(b: &mut [u8], at: usize, thrusters: [Thruster; 12], n: usize) -> usize
    requires { (at < 2 ^ 27) × (n ≤ 12) }
    ensures { Puts b.old at (Writing.thrusters_text thrusters n) (112 * n) b.new result }
{
    let mut i = at;
    for t in &thrusters[..n] {
        i = put_thruster(b, i, *t);
    }
    i
}

// The list of actuators, and the brackets that close the problem.
fn put_actuators(b: &mut [u8], at: usize, a: Actuators) -> usize
    requires { (at < 2 ^ 26) × ((a.wheel_count ≤ 8) × (a.thruster_count ≤ 12)) }
    ensures { Puts b.old at (Pieces.flat (Pieces.actuators a)) 2400 b.new result }
{
    let wheels = a.wheels;
    let thrusters = a.thrusters;
    let cmgs = a.cmgs;
    let i = put_all(b, at, b" (actuators");
    let j = put_wheels(b, i, wheels, a.wheel_count);
    let k = put_thrusters(b, j, thrusters, a.thruster_count);
    let l = put_gyros(b, k, cmgs);
    put_all(b, l, b"))\n")
}

// Four floats, scalar first.
fn put_quat(b: &mut [u8], at: usize, head: &[u8], q: Quat) -> usize
    requires { (at < 2 ^ 28) × (length head.now ≤ 64) }
    ensures { PutsLine b.old at head.now 4 (Pieces.quat q) Writing.close b.new result }
{
    let v = [q.w, q.x, q.y, q.z];
    put_line(b, at, head, &v, 4, b")\n")
}

// The weights' line.
fn put_weights(b: &mut [u8], at: usize, w: Weights) -> usize
    requires { at < 2 ^ 28 }
    ensures { Puts b.old at (Pieces.flat (Writing.weights_line w)) 113 b.new result }
{
    let v = [
        w.time,
        w.control,
        w.energy,
        w.pointing,
        w.smoothness,
        w.momentum,
    ];
    put_line(b, at, b" (weights", &v, 6, b")\n")
}

// The slew limit's line.
fn put_slew(b: &mut [u8], at: usize, slew: Option<f64>) -> usize
    requires { at < 2 ^ 28 }
    ensures { Puts b.old at (Pieces.flat (Writing.slew_line slew)) 25 b.new result }
{
    let i = put_all(b, at, b" (slew");
    let j = put_limit(b, i, slew);
    put_all(b, j, b")\n")
}

// The inertia's line.
fn put_inertia(b: &mut [u8], at: usize, j: [f64; 9]) -> usize
    requires { at < 2 ^ 28 }
    ensures { Puts b.old at (Pieces.flat (Writing.inertia_line j)) 164 b.new result }
{
    put_line(b, at, b" (inertia", &j, 9, b")\n")
}

// The torque limits' line.
fn put_torques(b: &mut [u8], at: usize, limit: [f64; 3]) -> usize
    requires { at < 2 ^ 28 }
    ensures { Puts b.old at (Pieces.flat (Writing.torques_line limit)) 60 b.new result }
{
    put_line(b, at, b" (limit", &limit, 3, b")\n")
}

// The tolerances' line.
fn put_tolerances(b: &mut [u8], at: usize, norm: f64, tie: f64) -> usize
    requires { at < 2 ^ 28 }
    ensures { Puts b.old at (Pieces.flat (Writing.tolerances_line norm tie)) 47 b.new result }
{
    let v = [norm, tie];
    put_line(b, at, b" (tolerance", &v, 2, b")\n")
}

// The lines of the two attitudes and what stands before them.
fn put_attitudes(b: &mut [u8], q0: Quat, qf: Quat) -> usize
    ensures { Puts b.old 0 (Pieces.flat (Writing.attitudes q0 qf)) 157 b.new result }
{
    let i = put_all(b, 0, b"(problem\n");
    let j = put_quat(b, i, b" (q0", q0);
    put_quat(b, j, b" (qf", qf)
}

// The lines of the body and its limits.
fn put_body(b: &mut [u8], at: usize, inertia: [f64; 9], limit: [f64; 3], slew: Option<f64>) -> usize
    requires { at < 2 ^ 27 }
    ensures { Puts b.old at (Pieces.flat (Writing.body inertia limit slew)) 249 b.new result }
{
    let i = put_inertia(b, at, inertia);
    let j = put_torques(b, i, limit);
    put_slew(b, j, slew)
}

// The line of the wheels' momenta.
fn put_momenta(b: &mut [u8], at: usize, momenta: [f64; 8], n: usize) -> usize
    requires { (at < 2 ^ 28) × (n ≤ 8) }
    ensures { Puts b.old at (Pieces.flat (Writing.momenta_line momenta n)) 147 b.new result }
{
    put_line(b, at, b" (momenta", &momenta, n, b")\n")
}

// The first eight lines.
fn put_fields(b: &mut [u8], p: Problem) -> usize
    ensures { Puts b.old 0 (Pieces.flat (Writing.fields p)) 800 b.new result }
{
    let q0 = p.q0;
    let qf = p.qf;
    let inertia = p.inertia;
    let limit = p.torque_limit;
    let slew = p.slew;
    let weights = p.weights;
    let i = put_attitudes(b, q0, qf);
    let j = put_body(b, i, inertia, limit, slew);
    let k = put_weights(b, j, weights);
    put_tolerances(b, k, p.norm_tolerance, p.tie_tolerance)
}

// The canonical text of a problem; nothing of one with more than 8 wheels or 12 thrusters, or with another count of momenta than of wheels, which no text
// holds.
pub fn write_problem(out: &mut [u8], p: Problem) -> usize
    ensures { Puts out.old 0 (Writing.written p) 4096 out.new result }
{
    let actuators = p.actuators;
    if actuators.wheel_count > 8 {
        return 0;
    }
    if actuators.thruster_count > 12 {
        return 0;
    }
    let momenta = p.momenta;
    if momenta.count != actuators.wheel_count {
        return 0;
    }
    let i = put_fields(out, p);
    let starts = momenta.at;
    let j = put_momenta(out, i, starts, momenta.count);
    put_actuators(out, j, actuators)
}
