// Dense samples of a problem's text: the text is read and planned with our own seed, and samples of the path are put into numbers or printed.
#![tactic(auto)]

ghost use Rattle.std.specs.Prelude.{◌≡◌, ◌≤◌, ◌++◌, length, drop};
ghost use Rattle.planner.specs.Plans as Plans;
ghost use Rattle.sample_text.specs.SampleTexts as SampleTexts;
ghost use Rattle.sample_text.specs.SampleTexts.{Gives, plan_course};

use common::{Refusal, SOLVER_NODES};
use forward::Node;
use geom::tensor;
use plan_text::plan_read;
use planner::{Planned, profiled};
use problem::{Problem, check};
use samples::rows::rows;
use samples::{PathSample, sample};
use std::num::nearest_u64_to_f64;
use text_writer::forms::state_of;

pub mod lines;

// A text's plan: how it ended, the forward runs begun, and what dense samples are taken of and with. A refused plan has no nodes but blank ones.
#[derive(Clone, Copy)]
pub struct Course {
    pub fate: Result<(), Refusal>,
    pub runs: usize,
    pub inertia: [f64; 9],
    pub tolerance: f64,
    pub alpha: f64,
    pub duration: f64,
    pub nodes: [Node; SOLVER_NODES],
}

// A dense sample of a text's plan, or the refusal of either, and the runs of a refused plan.
#[derive(Clone, Copy)]
pub struct Dense {
    pub runs: usize,
    pub sampled: Result<PathSample, Refusal>,
}

// The acceleration of a problem's profile, which the Rust's `plan` asks for dense samples with.
pub fn alpha_of(p: Problem) -> f64
    ensures { result ≡ SampleTexts.alpha_of p }
{
    let checked = check(p);
    let problem = checked.problem;
    let made = profiled(problem);
    let profile = made.profile;
    profile.alpha
}

// What a plan is to its samples, which are asked for with an acceleration.
pub fn course_of(p: Problem, a: Planned, alpha: f64) -> Course
    ensures { result ≡ SampleTexts.course_of p a alpha }
{
    let path = a.path;
    let fate = a.fate;
    let inertia = p.inertia;
    let nodes = path.nodes;
    Course {
        fate: fate,
        runs: a.runs,
        inertia: inertia,
        tolerance: p.norm_tolerance,
        alpha: alpha,
        duration: path.duration,
        nodes: nodes,
    }
}

// The plan of a text from our own seed, to take samples of.
pub fn plan_course(text: &[u8], ws: &mut [f64]) -> Course
    ensures value { result ≡ SampleTexts.plan_course text.now (length ws.old) }
    ensures ws_after { ws.new ≡ Plans.leaves result.runs ws.old }
{
    let read = text_reader::read(text);
    let p = read.problem;
    let a = plan_read(read, ws);
    course_of(p, a, alpha_of(p))
}

// Sample number index of the path.
fn sample_of(c: Course, requested: usize, alpha: f64, index: usize) -> Result<PathSample, Refusal>
    ensures { result ≡ SampleTexts.sample_of c requested alpha index }
{
    let inertia = c.inertia;
    let nodes = c.nodes;
    let j = tensor(inertia);
    let by_rows = rows(nodes);
    sample(
        j,
        c.tolerance,
        c.duration,
        &by_rows,
        requested,
        alpha,
        index,
    )
}

// Sample number index of a text's plan.
pub fn sample_course(c: Course, requested: usize, alpha: f64, index: usize) -> Dense
    ensures { result ≡ SampleTexts.sample_course c requested alpha index }
{
    match c.fate {
        Err(why) => Dense {
            runs: c.runs,
            sampled: Err(why),
        },
        Ok(()) => Dense {
            runs: 0,
            sampled: sample_of(c, requested, alpha, index),
        },
    }
}

// A sample's time, attitude, rate, torque and body momentum.
pub fn numbers_of(s: PathSample) -> [f64; 14]
    ensures { result ≡ SampleTexts.numbers s }
{
    let q = s.q;
    let w = s.w;
    let tau = s.tau;
    let h = s.h;
    state_of(s.t, q, w, tau, h)
}

// A count as a float.
fn float_of(n: usize) -> f64
    ensures { result ≡ SampleTexts.float n }
{
    nearest_u64_to_f64(n as u64)
}

// The first numbers of `out` become those of `v`.
fn put_numbers(out: &mut [f64], v: &[f64])
    requires { length v.now ≤ length out.old }
    ensures { out.new ≡ v.now ++ drop (length v.now) out.old }
{
    out[..v.len()].copy_from_slice(v);
}

// A sample's 14 numbers, and 0; or a refusal's place and runs, and its number.
fn put_dense(d: Dense, out: &mut [f64]) -> u64
    requires { 14 ≤ length out.old }
    ensures { (result ≡ SampleTexts.number (SampleTexts.answer d)) × (out.new ≡ SampleTexts.headed (SampleTexts.answer d) out.old) }
{
    match d.sampled {
        Err(why) => {
            let v = [float_of(why.place), float_of(d.runs)];
            put_numbers(out, &v);
            why.number as u64
        }
        Ok(s) => {
            let v = numbers_of(s);
            put_numbers(out, &v);
            0
        }
    }
}

// One dense sample of a text's plan. Fewer than 14 numbers lent get nothing, and then no run begins.
pub fn sample_text(
    text: &[u8],
    ws: &mut [f64],
    requested: usize,
    alpha: f64,
    index: usize,
    out: &mut [f64],
) -> u64
    ensures { Gives (plan_course text.now) requested alpha index ws.old out.old result ws.new out.new }
{
    if out.len() < 14 {
        return 99;
    }
    let c = plan_course(text, ws);
    let d = sample_course(c, requested, alpha, index);
    put_dense(d, out)
}
