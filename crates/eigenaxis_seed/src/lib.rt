// The eigenaxis seed: rates along a shape about the one axis of the turn, and for each step the torque that takes the rate which the step law has reached to the
// next of them. The state is followed by the step law's own operations on the row that the planner will run, so that no rounding adds up from step to step.
#![tactic(auto)]

ghost use Rattle.std.specs.Prelude.{◌≡◌, ◌+◌, ◌*◌, ◌≤◌, ◌<◌};
ghost use Rattle.common.specs.Iter.{iter};
ghost use Rattle.actuators.specs.Pyramid as Pyramid;
ghost use Rattle.eigenaxis_seed.specs.Shapes as Shapes;
ghost use Rattle.eigenaxis_seed.specs.Seeds as Seeds;

use actuators::{ActuatorMap, CmgPyramid, allocate_body_torque, pyramid_a};
use common::STEPS;
use problem::CheckedProblem;

// How the rate goes about the axis: up, level and down, as short as the limits allow; or in one smooth wave, for sensors that shake.
#[derive(Clone, Copy)]
pub enum Shape {
    Fastest,
    Gentle,
}

// What the next step reads of a run: rate, body momentum, the wheels' momenta, the gimbals' angles.
#[derive(Clone, Copy)]
pub struct Motion {
    pub w: [f64; 3],
    pub h: [f64; 3],
    pub hw: [f64; 8],
    pub delta: [f64; 4],
}

// A seed on its way: whether no control so far was held to its limit, the rates and torques of the nodes, three numbers a node, and the motion reached.
#[derive(Clone, Copy)]
pub struct Seeding {
    pub fits: bool,
    pub rates: [f64; 51],
    pub torques: [f64; 51],
    pub motion: Motion,
}

// The turn from q0 to qf as a rotation vector, the shorter way round.
pub fn turn_of(p: CheckedProblem) -> [f64; 3]
    ensures { result ≡ Seeds.turn_of p }
{
    match geom::rotation_between(p.q0, p.qf) {
        None => [0.0; 3],
        Some((x, y, z)) => [x, y, z],
    }
}

// The smaller of two numbers.
fn least(a: usize, b: usize) -> usize
    ensures { (result ≡ Shapes.least a b) × (result ≤ a) }
{
    if a < b { a } else { b }
}

// The height of the shape at node i, with k rising steps.
fn height(shape: Shape, k: usize, i: usize) -> u32
    requires { i < 17 }
    ensures { result ≡ Shapes.height shape k i }
{
    match shape {
        Shape::Fastest => least(i, least(k, 16 - i)) as u32,
        Shape::Gentle => {
            let wave: [u32; 17] = [
                0, 225, 784, 1521, 2304, 3025, 3600, 3969, 4096, 3969, 3600, 3025, 2304, 1521, 784,
                225, 0,
            ];
            wave[i]
        }
    }
}

// The sum of the 17 heights.
fn area(shape: Shape, k: usize) -> u32
    requires { k ≤ 8 }
    ensures { result ≡ Shapes.area shape k }
{
    match shape {
        Shape::Fastest => (k * (16 - k)) as u32,
        Shape::Gentle => 34952,
    }
}

// The rate at node i, in whole turns of the rotation vector a second.
fn pace(shape: Shape, k: usize, duration: f64, i: usize) -> f64
    requires { (k ≤ 8) × (i < 17) }
    ensures { result ≡ Shapes.pace shape k duration i }
{
    let h = height(shape, k, i);
    let a = area(shape, k);
    16.0 * (h as f64) / ((a as f64) * duration)
}

// One rising step less, where the level rate of k of them is over the limit.
fn fewer_rising(limit: f64, angle: f64, duration: f64, k: usize) -> usize
    requires { (1 < k) × (k ≤ 8) }
    ensures { (result ≡ Shapes.fewer_rising limit angle duration k) × ((result ≤ k) × (k ≤ result + 1)) }
{
    if limit < angle * pace(Shape::Fastest, k, duration, 8) {
        k - 1
    } else {
        k
    }
}

// The rising steps under a slew limit.
fn limited_rising(limit: f64, angle: f64, duration: f64) -> usize
    ensures { (result ≡ iter (Shapes.rising_turn limit angle duration) 8 7) × (result ≤ 8) }
{
    let mut k: usize = 8;
    for _ in 0..7usize {
        k = fewer_rising(limit, angle, duration, k);
    }
    k
}

// The rising steps: as many as the slew limit lets, from 8 down to 1.
fn rising(slew: Option<f64>, angle: f64, duration: f64) -> usize
    ensures { (result ≡ Shapes.rising slew angle duration) × (result ≤ 8) }
{
    match slew {
        None => 8,
        Some(limit) => limited_rising(limit, angle, duration),
    }
}

// The rate that node i is to have.
fn aim(shape: Shape, k: usize, duration: f64, phi: [f64; 3], i: usize) -> [f64; 3]
    requires { (k ≤ 8) × (i < 17) }
    ensures { result ≡ Seeds.aim shape k duration phi i }
{
    geom::scale3(phi, pace(shape, k, duration, i))
}

// The dot product of two rows of four.
fn dot4(a: [f64; 4], b: [f64; 4]) -> f64
    ensures { result ≡ Pyramid.dot4 a b }
{
    a[0] * b[0] + a[1] * b[1] + a[2] * b[2] + a[3] * b[3]
}

// A row of four times each row of a matrix.
fn against(a: [f64; 4], b: [[f64; 4]; 3]) -> [f64; 3]
    ensures { result ≡ Seeds.against a b }
{
    [dot4(a, b[0]), dot4(a, b[1]), dot4(a, b[2])]
}

// The product of a matrix and another one transposed.
fn mixed(a: [[f64; 4]; 3], b: [[f64; 4]; 3]) -> [[f64; 3]; 3]
    ensures { result ≡ Seeds.mixed a b }
{
    [against(a[0], b), against(a[1], b), against(a[2], b)]
}

// The y whose gimbal rates A(0)ᵀ y give the torque net, a being the matrix at the gimbals' angles and a0 at 0.
fn pyramid_share(momentum: f64, a: [[f64; 4]; 3], a0: [[f64; 4]; 3], net: [f64; 3]) -> [f64; 3]
    ensures { result ≡ Seeds.pyramid_share momentum a a0 net }
{
    let m = geom::invert3(mixed(a, a0)).unwrap_or([0.0; 9]);
    geom::apply_tensor(geom::tensor(m), geom::scale3(net, -1.0 / momentum))
}

// The torque that the allocation must be handed for it.
fn pyramid_by(momentum: f64, a: [[f64; 4]; 3], a0: [[f64; 4]; 3], net: [f64; 3]) -> [f64; 3]
    ensures { result ≡ Seeds.pyramid_by momentum a a0 net }
{
    let y = pyramid_share(momentum, a, a0, net);
    geom::scale3(
        geom::apply_tensor(actuators::pyramid::gram(a0), y),
        -momentum,
    )
}

// The torque to be allocated, as if the gimbals stood at 0, so that the gimbal rates give the torque net at the angles delta.
fn pyramid_torque(p: CmgPyramid, delta: [f64; 4], net: [f64; 3]) -> [f64; 3]
    ensures { result ≡ Seeds.pyramid_torque p delta net }
{
    let here = pyramid_a(p.skew_rad, delta).unwrap_or([0.0; 12]);
    let first = pyramid_a(p.skew_rad, [0.0; 4]).unwrap_or([0.0; 12]);
    pyramid_by(
        p.wheel_momentum_nms,
        actuators::pyramid::rows(here),
        actuators::pyramid::rows(first),
        net,
    )
}

// The torque to be allocated so that the step has the torque net: another one with a pyramid alone, since its rates are allocated as if its gimbals had not moved.
fn handed(cmgs: Option<CmgPyramid>, delta: [f64; 4], net: [f64; 3]) -> [f64; 3]
    ensures { result ≡ Seeds.handed cmgs delta net }
{
    match cmgs {
        None => net,
        Some(p) => pyramid_torque(p, delta, net),
    }
}

// The body torque that takes the rate reached to the target in a step of dt, by Euler's equations.
fn net_torque(p: CheckedProblem, dt: f64, target: [f64; 3], m: Motion) -> [f64; 3]
    ensures { result ≡ Seeds.net_torque p dt target m }
{
    let wd = geom::scale3(geom::sub3(target, m.w), 1.0 / dt);
    geom::euler_lhs(geom::tensor(p.inertia), wd, m.w, m.h)
}

// The torque of the seed for the step that is to end with the target rate.
fn seed_torque(p: CheckedProblem, dt: f64, target: [f64; 3], m: Motion) -> [f64; 3]
    ensures { result ≡ Seeds.seed_torque p dt target m }
{
    handed(p.map.cmgs, m.delta, net_torque(p, dt, target, m))
}

// The row of controls that gives a torque.
fn row_of(p: CheckedProblem, torque: [f64; 3]) -> [f64; 20]
    ensures { result ≡ Seeds.row_of p torque }
{
    allocate_body_torque(p.map, torque).unwrap_or([0.0; 20])
}

// The row held to its limits.
fn held_row(p: CheckedProblem, u: [f64; 20]) -> [f64; 20]
    ensures { result ≡ Seeds.held_row p u }
{
    let mut out = u;
    controls::project_controls(p.map, &mut out, p.torque_limit);
    out
}

// Whether two numbers are equal, where everything before was.
fn also(same: bool, x: f64, y: f64) -> bool
    ensures { result ≡ Seeds.also same x y }
{
    if x == y { same } else { false }
}

// Whether two rows are equal.
fn alike(a: [f64; 20], b: [f64; 20]) -> bool
    ensures { result ≡ Seeds.alike a b }
{
    let mut same = true;
    for i in 0..20 {
        same = also(same, a[i], b[i]);
    }
    same
}

// Whether both hold.
fn both(a: bool, b: bool) -> bool
    ensures { result ≡ Seeds.both a b }
{
    if a { b } else { false }
}

// The wheels' momenta after a step of dt at these rates.
fn charged(hw: [f64; 8], rates: [f64; 8], dt: f64) -> [f64; 8]
    ensures { result ≡ Seeds.charged hw rates dt }
{
    [
        hw[0] + rates[0] * dt,
        hw[1] + rates[1] * dt,
        hw[2] + rates[2] * dt,
        hw[3] + rates[3] * dt,
        hw[4] + rates[4] * dt,
        hw[5] + rates[5] * dt,
        hw[6] + rates[6] * dt,
        hw[7] + rates[7] * dt,
    ]
}

// The rate at the end of a step with the row u.
fn rate_after(p: CheckedProblem, dt: f64, u: [f64; 20], m: Motion) -> [f64; 3]
    ensures { result ≡ Seeds.rate_after p dt u m }
{
    let map = p.map;
    let j = p.inertia;
    let inverse = p.inverse;
    let w = m.w;
    let h = m.h;
    let delta = m.delta;
    let tau = controls::body_torque(map, &u, w, h, delta).unwrap_or([0.0; 3]);
    forward::steps::rate_next(w, forward::steps::rate_dot(j, inverse, w, h, tau), dt)
}

// The motion after a step with the row u. A pyramid is served alone, so its rates are the row's first four.
fn follow(p: CheckedProblem, dt: f64, u: [f64; 20], m: Motion) -> Motion
    ensures { result ≡ Seeds.follow p dt u m }
{
    let map = p.map;
    let hw = m.hw;
    let delta = m.delta;
    let rates = controls::wheel_momentum_rates(map, &u);
    let hw2 = charged(hw, rates, dt);
    let w2 = rate_after(p, dt, u, m);
    let h2 = controls::body_momentum(map, &hw2);
    let delta2 = forward::steps::gimbals_next(&u, delta, dt);
    Motion {
        w: w2,
        h: h2,
        hw: hw2,
        delta: delta2,
    }
}

// The numbers with w as node i.
fn placed(v: [f64; 51], i: usize, w: [f64; 3]) -> [f64; 51]
    requires { i < 17 }
    ensures { result ≡ Seeds.placed v i w }
{
    let mut out = v;
    out[3 * i] = w[0];
    out[3 * i + 1] = w[1];
    out[3 * i + 2] = w[2];
    out
}

// Step i of the seed, which is to end with the target rate.
fn step(p: CheckedProblem, dt: f64, i: usize, target: [f64; 3], s: Seeding) -> Seeding
    requires { i < 16 }
    ensures { result ≡ Seeds.step p dt i target s }
{
    let motion = s.motion;
    let rates = s.rates;
    let torques = s.torques;
    let torque = seed_torque(p, dt, target, motion);
    let row = row_of(p, torque);
    let u = held_row(p, row);
    let rates2 = placed(rates, i + 1, target);
    let torques2 = placed(torques, i, torque);
    let motion2 = follow(p, dt, u, motion);
    let fits = both(alike(row, u), s.fits);
    Seeding {
        fits: fits,
        rates: rates2,
        torques: torques2,
        motion: motion2,
    }
}

// The start of a seed: at rest, the wheels with the problem's momenta, the gimbals at 0.
fn start(p: CheckedProblem) -> Seeding
    ensures { result ≡ Seeds.start p }
{
    let map = p.map;
    let hw = p.momenta;
    let w = [0.0; 3];
    let h = controls::body_momentum(map, &hw);
    let delta = [0.0; 4];
    let motion = Motion {
        w: w,
        h: h,
        hw: hw,
        delta: delta,
    };
    let zeros = [0.0; 51];
    Seeding {
        fits: true,
        rates: zeros,
        torques: zeros,
        motion: motion,
    }
}

// Step i of the seed of a duration.
fn turn(
    p: CheckedProblem,
    shape: Shape,
    k: usize,
    duration: f64,
    phi: [f64; 3],
    i: usize,
    s: Seeding,
) -> Seeding
    requires { (k ≤ 8) × (i < 16) }
    ensures { result ≡ Seeds.turn p shape k duration phi i s }
{
    step(
        p,
        duration / 16.0,
        i,
        aim(shape, k, duration, phi, i + 1),
        s,
    )
}

// The seed of a duration, phi being the rotation vector of the turn.
pub fn seed(p: CheckedProblem, shape: Shape, phi: [f64; 3], duration: f64) -> Seeding
    ensures { result ≡ Seeds.seed p shape phi duration }
{
    let k = rising(p.slew, geom::norm3(phi), duration);
    let mut s = start(p);
    for i in 0..STEPS {
        s = turn(p, shape, k, duration, phi, i, s);
    }
    s
}
