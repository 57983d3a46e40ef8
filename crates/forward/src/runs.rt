// Forward runs: 16 steps from the problem's start, and their 17 nodes. Carried over from `reconstruct` of quatopsy-plan/src/scvx.rs (Apache-2.0), changed:
// the wheels begin with the problem's momenta, the state is a local of one loop, which writes the nodes into lent rows, the largest defect is found by squares, and a refused run answers blank nodes.
ghost use Rattle.std.specs.Prelude.{◌≡◌, ◌+◌, ◌*◌, ◌≤◌, ◌<◌, length, true, T};
ghost use Rattle.actuators.specs.Maps.{gimbals, is_sized, control_dim};
ghost use Rattle.control_rows.specs.Parts.{Sized};
ghost use Rattle.std.specs.Float.{binary64};
ghost use Rattle.float.specs.Ops as Ops;
ghost use Rattle.float.specs.Sqrt.{sqrt};
ghost use Rattle.forward.specs.DefectLaws.{upright};
ghost use Rattle.forward.specs.Steps as Steps;
ghost use Rattle.forward.specs.StepLaws.{AnglesOf};
ghost use Rattle.forward.specs.GimbalStartInner as GimbalStartInner;
ghost use Rattle.forward.specs.StepPartInner as StepPartInner;
ghost use Rattle.forward.specs.Runs as Runs;
ghost use Rattle.forward.specs.PartLaws as PartLaws;

use super::rows::{node_row, nodes_in, torque_in};
use super::steps::{attitude, dynamics, dynamics_from, join};
use super::{
    Angles, Body, BodyState, Dynamics, Frame, GimbalStart, Node, Partway, Run, Skew, Went,
};
use actuators::{CmgPyramid, control_dim};
use angles::sin_cos;
use common::{Decision, Refusal, SOLVER_NODES, STEPS};
use control_rows::{WheelLaw, body_momentum};
use controls::rig_under;
use geom::Quat;
use gimbal_angles::pyramid_known;
use problem::CheckedProblem;

// The start of a run: at q0, at rest, n wheels with the momenta hw and the body momentum that they make, the gimbals at +0.
pub fn start(wheels: &[f64; 24], n: usize, q0: Quat, hw: [f64; 8]) -> BodyState
    requires { n ≤ 8 }
    ensures { result ≡ Runs.start wheels.now n q0 hw }
{
    let three = [0.0; 3];
    let four = [0.0; 4];
    let h = body_momentum(wheels, n, &hw);
    BodyState {
        q: q0,
        w: three,
        h: h,
        hw: hw,
        delta: four,
    }
}

// A node of zeros.
pub fn blank_node() -> Node
    ensures { result ≡ Runs.blank_node }
{
    let three = [0.0; 3];
    let eight = [0.0; 8];
    let q = Quat {
        w: 0.0,
        x: 0.0,
        y: 0.0,
        z: 0.0,
    };
    Node {
        t: 0.0,
        q: q,
        w: three,
        tau: three,
        h: three,
        hw: eight,
    }
}

// A run that was refused: no nodes.
pub fn refused_run(number: usize, place: usize) -> Run
    ensures { result ≡ Runs.refused_run number place }
{
    let blank = blank_node();
    let nodes = [blank; SOLVER_NODES];
    Run {
        fate: Err(Refusal { number, place }),
        defect: 0.0,
        nodes: nodes,
    }
}

// The larger of two squared defects, of which a is no NaN and x gives way if it is one: its root is the larger of the roots.
pub fn larger_square(a: f64, x: f64) -> f64
    requires { T (upright a) }
    ensures { T (upright result) × (sqrt binary64 result ≡ Ops.max (sqrt binary64 a) (sqrt binary64 x)) }
{
    if a < x { x } else { a }
}

// The dynamics of step i from where l, those of the step before, end; from step `end` on there are none, and l stays.
pub fn next_dynamics(
    b: &Body,
    known: Angles,
    n: usize,
    z: &[f64],
    i: usize,
    end: usize,
    l: Dynamics,
) -> Dynamics
    requires { (Sized b.now.rig (gimbals b.now.rig.cmgs) n) × (((n ≤ 12) × (length z.now ≡ 193)) × ((end ≤ 16) × AnglesOf b.now.rig.cmgs known.skew known.lut.now)) }
    ensures { StepPartInner.Next b.now n z.now i end l result }
{
    if i < end {
        let at = 1 + i * n;
        let past = at + n;
        return dynamics(b, known, &z[at..past], i, l.s, l.a);
    }
    l
}

// A run before its first step, from a state whose pyramid matrix is a.
pub fn unbegun(from: BodyState, a: [f64; 12]) -> Partway
    ensures { result ≡ PartLaws.unbegun from a }
{
    Partway {
        s: from,
        a: a,
        square: 0.0,
    }
}

// Steps k up to `end` of a run after k steps, n controls a row; their nodes go into the lent rows, of which no other is changed. A turn of the loop has the dynamics of step i, the sine and cosine of the step before, the length
// of step i's turn, the attitude after the step before: in this order, since none waits for the one before it but the attitude for the sine and cosine.
pub fn steps_on(
    b: &Body,
    known: Angles,
    n: usize,
    z: &Decision,
    k: usize,
    end: usize,
    c: Partway,
    nodes: &mut [[f64; 22]; SOLVER_NODES],
) -> Went
    requires { (Sized b.now.rig (gimbals b.now.rig.cmgs) n) × ((n ≤ 12) × (AnglesOf b.now.rig.cmgs known.skew known.lut.now × (PartLaws.Sound b.now.rig c × ((k ≤ end) × (end ≤ 16))))) }
    ensures { PartLaws.Reached b.now n z.now k end c nodes.old result nodes.new }
{
    let f = b.frame;
    let mut s = c.s;
    let a = c.a;
    let mut l = dynamics_from([0.0; 3], 0.0, [0.0; 3], s, a);
    let mut length = 0.0;
    let mut square = c.square;
    for i in k..end + 1 {
        let next = next_dynamics(b, known, n, z, i, end, l);
        let turn = l.turn;
        let turned = geom::exp_at(turn, length);
        let next_turn = next.turn;
        length = geom::norm3(next_turn);
        if k < i {
            let j = i - 1;
            let q = s.q;
            let g = join(attitude(q, turned, f.tolerance, j), l, s);
            let fate = g.fate;
            match fate {
                Err(_) => return Went { fate: fate, at: c },
                Ok(()) => {}
            }
            let s2 = g.s;
            let tau = g.tau;
            let row = node_row(f.dt, j, s, tau);
            nodes[j] = row;
            square = larger_square(square, g.defect);
            s = s2;
        }
        l = next;
    }
    let a2 = l.a;
    let at = Partway {
        s: s,
        a: a2,
        square: square,
    };
    Went {
        fate: Ok(()),
        at: at,
    }
}

// The skew's sine and cosine and the pyramid's matrix at the start, from the pyramid's skew.
fn start_pyramid(p: CmgPyramid) -> Result<GimbalStart, Refusal>
    ensures { result ≡ GimbalStartInner.start_gimbals (Some p) }
{
    let Some((sine, cosine)) = sin_cos(p.skew_rad) else {
        return Err(Refusal {
            number: 11,
            place: 0,
        });
    };
    let none = [0.0; 0];
    let a = pyramid_known(sine, cosine, [0.0; 4], &none, 0)?;
    Ok(GimbalStart {
        skew: Skew { sine, cosine },
        a,
    })
}

// What a run makes once, before its steps; zeros with no pyramid.
pub fn start_gimbals(c: Option<CmgPyramid>) -> Result<GimbalStart, Refusal>
    ensures { result ≡ GimbalStartInner.start_gimbals c }
{
    match c {
        None => Ok(GimbalStart {
            skew: Skew {
                sine: 0.0,
                cosine: 0.0,
            },
            a: [0.0; 12],
        }),
        Some(p) => start_pyramid(p),
    }
}

// What no step of this problem's runs changes, with steps of dt.
pub fn frame_of(p: CheckedProblem, dt: f64) -> Frame
    ensures { result ≡ Runs.frame_of p dt }
{
    let j = p.inertia;
    let jinv = p.inverse;
    Frame {
        j,
        jinv,
        tolerance: p.norm_tolerance,
        dt,
    }
}

// What no step of this problem's runs changes, with steps of dt.
fn body_under(law: WheelLaw, p: CheckedProblem, dt: f64) -> Body
    ensures { result ≡ Runs.body_under law p dt }
{
    let map = p.map;
    let wheels = map.wheel_axes;
    let powers = map.wheel_powers;
    let thrusters = map.thruster_axes;
    Body {
        rig: rig_under(law, map),
        wheels,
        powers,
        thrusters,
        frame: frame_of(p, dt),
    }
}

// Steps k up to `end` of a checked problem's run with the decision z, after its first k steps.
pub fn steps_under(
    law: WheelLaw,
    p: CheckedProblem,
    z: &Decision,
    known: Angles,
    k: usize,
    end: usize,
    c: Partway,
    nodes: &mut [[f64; 22]; SOLVER_NODES],
) -> Went
    requires { PartLaws.Fits law p known.skew known.lut.now c × ((k ≤ end) × (end ≤ 16)) }
    ensures { PartLaws.ReachedUnder law p z.now k end c nodes.old result nodes.new }
{
    let n = control_dim(p.map);
    let b = body_under(law, p, z[0] / 16.0);
    steps_on(&b, known, n, z, k, end, c, nodes)
}

// The rest of a run after its first k steps, and its last node, which repeats the torque of the one before.
pub fn run_on(
    law: WheelLaw,
    p: CheckedProblem,
    z: &Decision,
    known: Angles,
    k: usize,
    c: Partway,
    nodes: &mut [[f64; 22]; SOLVER_NODES],
) -> Went
    requires { PartLaws.Fits law p known.skew known.lut.now c × (k ≤ 16) }
    ensures { PartLaws.RanUnder law p z.now k c nodes.old result nodes.new }
{
    let w = steps_under(law, p, z, known, k, 16, c, nodes);
    let fate = w.fate;
    match fate {
        Err(_) => return w,
        Ok(()) => {}
    }
    let at = w.at;
    let s = at.s;
    let tau = torque_in(nodes[15]);
    let last = node_row(z[0] / 16.0, 16, s, tau);
    nodes[STEPS] = last;
    w
}

// One forward run of a checked problem and a decision into lent rows, under a law of the wheels' torque. No gimbal angle is known beforehand.
pub fn run_into(
    law: WheelLaw,
    p: CheckedProblem,
    z: &Decision,
    nodes: &mut [[f64; 22]; SOLVER_NODES],
) -> Went
    requires { (is_sized p.map ≡ true) × ((control_dim p.map ≤ 12) × (length nodes.old ≡ 17)) }
    ensures { (PartLaws.told result nodes.new ≡ Runs.run_under law p z.now) × (length nodes.new ≡ 17) }
{
    let map = p.map;
    let cmgs = map.cmgs;
    let wheels = map.wheel_axes;
    let momenta = p.momenta;
    let from = start(&wheels, map.wheel_count, p.q0, momenta);
    match start_gimbals(cmgs) {
        Err(_) => Went {
            fate: Err(Refusal {
                number: 11,
                place: 0,
            }),
            at: unbegun(from, [0.0; 12]),
        },
        Ok(l) => {
            let none = [0.0; 0];
            let known = Angles {
                skew: l.skew,
                lut: &none,
            };
            run_on(law, p, z, known, 0, unbegun(from, l.a), nodes)
        }
    }
}

// One forward run of a checked problem and a decision.
pub fn run_of(p: CheckedProblem, z: Decision) -> Run
    requires { (is_sized p.map ≡ true) × (control_dim p.map ≤ 12) }
    ensures { result ≡ Runs.run_of p z }
{
    run_under(WheelLaw::Once, p, z)
}

// The same under a law of the wheels' torque.
pub fn run_under(law: WheelLaw, p: CheckedProblem, z: Decision) -> Run
    requires { (is_sized p.map ≡ true) × (control_dim p.map ≤ 12) }
    ensures { result ≡ Runs.run_under law p z }
{
    let row = [0.0; 22];
    let mut rows = [row; 17];
    let w = run_into(law, p, &z, &mut rows);
    let fate = w.fate;
    match fate {
        Err(refusal) => refused_run(refusal.number, refusal.place),
        Ok(()) => {
            let at = w.at;
            let nodes = nodes_in(&rows);
            Run {
                fate: Ok(()),
                defect: float::sqrt(at.square),
                nodes: nodes,
            }
        }
    }
}
