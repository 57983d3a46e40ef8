// What a control row does to the body: the torque of its parts, the momentum of the wheels. Tables are lent; counts and lengths are asked for.
// Carried over from quatopsy-plan/src/actuators.rs (Apache-2.0), changed: flat tables are lent, the pyramid's matrix is made beforehand.
#![tactic(auto)]

ghost use Rattle.std.specs.Prelude.{◌≡◌, ◌*◌, ◌≤◌, length};
ghost use Rattle.actuators.specs.Maps as Maps;
ghost use Rattle.control_rows.specs.Parts as Parts;

use actuators::CmgPyramid;

// How the wheels' stored momentum enters a step: its cross product with the rate stands once, in Euler's equations; or, as in the published Rust, in the
// wheels' torque too.
#[derive(Clone, Copy)]
pub enum WheelLaw {
    Once,
    Published,
}

// Which actuators there are, counts of wheels and thrusters and the pyramid, and the law of the wheels' torque. A map has the same counts and pyramid
// beside its tables; a step is handed these four fields by value and lends the tables, so that no table is copied.
#[derive(Clone, Copy)]
pub struct Rig {
    pub wheel_count: usize,
    pub thruster_count: usize,
    pub cmgs: Option<CmgPyramid>,
    pub law: WheelLaw,
}

// Each axis of a table scaled by its control, added to `start` from the left.
pub fn axis_sum(axes: &[f64], n: usize, u: &[f64], start: [f64; 3]) -> [f64; 3]
    requires { (3 * n ≤ length axes.now) × (n ≤ length u.now) }
    ensures { result ≡ Parts.axes axes.now u.now start n }
{
    let mut e = start;
    for i in 0..n {
        let a = 3 * i;
        let x = u[i];
        e = [
            e[0] + axes[a] * x,
            e[1] + axes[a + 1] * x,
            e[2] + axes[a + 2] * x,
        ];
    }
    e
}

// The torque `less`, from which the wheels' sum is taken, under a law: the published one takes the cross product of the rate and the stored momentum too.
fn wheel_by(law: WheelLaw, less: [f64; 3], omega: [f64; 3], h: [f64; 3]) -> [f64; 3]
    ensures { result ≡ Parts.wheel_by law less omega h }
{
    match law {
        WheelLaw::Once => less,
        WheelLaw::Published => geom::add3(less, geom::scale3(geom::cross(omega, h), -1.0)),
    }
}

// The wheel part of a row, taken from `tau`: the negated sum of the axes, each scaled by its control, and what the law has besides.
pub fn wheel_part(
    law: WheelLaw,
    axes: &[f64; 24],
    n: usize,
    u: &[f64],
    omega: [f64; 3],
    h: [f64; 3],
    tau: [f64; 3],
) -> [f64; 3]
    requires { (n ≤ 8) × (n ≤ length u.now) }
    ensures { result ≡ Parts.wheel_part law axes.now n u.now omega h tau }
{
    if n == 0 {
        return tau;
    }
    let eta = axis_sum(axes, n, u, [0.0; 3]);
    wheel_by(law, geom::add3(tau, geom::scale3(eta, -1.0)), omega, h)
}

// The torque of a pyramid's gimbal rates, taken from `tau`: its wheels' momentum times its matrix, three rows of four, times the rates.
fn pyramid_part(momentum: f64, a: [f64; 12], u: &[f64], tau: [f64; 3]) -> [f64; 3]
    requires { 4 ≤ length u.now }
    ensures { result ≡ Parts.pyramid_part momentum a u.now tau }
{
    let g0 = u[0];
    let g1 = u[1];
    let g2 = u[2];
    let g3 = u[3];
    let x = [
        a[0] * g0 + a[1] * g1 + a[2] * g2 + a[3] * g3,
        a[4] * g0 + a[5] * g1 + a[6] * g2 + a[7] * g3,
        a[8] * g0 + a[9] * g1 + a[10] * g2 + a[11] * g3,
    ];
    geom::add3(tau, geom::scale3(x, -momentum))
}

// The gimbal part of a row, taken from `tau`.
pub fn gimbal_part(cmgs: Option<CmgPyramid>, a: [f64; 12], u: &[f64], tau: [f64; 3]) -> [f64; 3]
    requires { Maps.gimbals cmgs ≤ length u.now }
    ensures { result ≡ Parts.gimbal_part cmgs a u.now tau }
{
    match cmgs {
        None => tau,
        Some(p) => pyramid_part(p.wheel_momentum_nms, a, u, tau),
    }
}

// There are no actuators: a row is three body torques.
pub fn is_bare(r: Rig) -> bool
    ensures { result ≡ Parts.bare r }
{
    let cmgs = r.cmgs;
    (r.wheel_count == 0) & (r.thruster_count == 0) & actuators::no_cmgs(cmgs)
}

// The torque of a row's parts: its wheel part, then the thruster part, then the gimbal part.
fn parts_torque(
    r: Rig,
    wheels: &[f64; 24],
    thrusters: &[f64; 36],
    u: &[f64],
    omega: [f64; 3],
    h: [f64; 3],
    a: [f64; 12],
) -> [f64; 3]
    requires { Parts.Room r (Maps.gimbals r.cmgs) (length u.now) }
    ensures { result ≡ Parts.parts_torque r wheels.now thrusters.now u.now omega h a }
{
    let nw = r.wheel_count;
    let nt = r.thruster_count;
    let b = nw + nt;
    let e = u.len();
    let law = r.law;
    let wheel = wheel_part(law, wheels, nw, &u[0..nw], omega, h, [0.0; 3]);
    let thrust = axis_sum(thrusters, nt, &u[nw..b], wheel);
    let cmgs = r.cmgs;
    gimbal_part(cmgs, a, &u[b..e], thrust)
}

// The torque of a row; with no actuators its first three numbers are the torque.
pub fn row_torque(
    r: Rig,
    wheels: &[f64; 24],
    thrusters: &[f64; 36],
    u: &[f64],
    omega: [f64; 3],
    h: [f64; 3],
    a: [f64; 12],
) -> [f64; 3]
    requires { Parts.Sized r (Maps.gimbals r.cmgs) (length u.now) }
    ensures { result ≡ Parts.row_torque r wheels.now thrusters.now u.now omega h a }
{
    if is_bare(r) {
        return [u[0], u[1], u[2]];
    }
    parts_torque(r, wheels, thrusters, u, omega, h, a)
}

// The momentum stored in the first n wheels, in the body's axes.
pub fn body_momentum(axes: &[f64; 24], n: usize, hw: &[f64]) -> [f64; 3]
    requires { (n ≤ 8) × (n ≤ length hw.now) }
    ensures { result ≡ Parts.body_momentum axes.now n hw.now }
{
    axis_sum(axes, n, hw, [0.0; 3])
}

// The wheels' momenta after a time `dt` under the wheel part of a row.
pub fn momenta_next(n: usize, hw: [f64; 8], u: &[f64], dt: f64) -> [f64; 8]
    requires { (n ≤ 8) × (n ≤ length u.now) }
    ensures { result ≡ Parts.momenta_next n hw u.now dt }
{
    let mut out = hw;
    for i in 0..n {
        out[i] += u[i] * dt;
    }
    out
}
