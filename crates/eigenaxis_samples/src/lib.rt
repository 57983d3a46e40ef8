// Dense samples of a text's eigenaxis plan: what they are taken of, and the acceleration that they are asked for with. `sample_text` prints them.
#![tactic(auto)]

ghost use Rattle.std.specs.Prelude.{◌≡◌, length};
ghost use Rattle.planner.specs.Plans as Plans;
ghost use Rattle.eigenaxis_samples.specs.Courses as Courses;

use common::SOLVER_NODES;
use eigenaxis_seed::Shape;
use eigenaxis_text::plan_eigenaxis_read;
use forward::Node;
use planner::Planned;
use sample_text::{Course, course_of};

// The larger of a and the length of the rate's change from w to w2 over a time dt.
fn steeper(w: [f64; 3], w2: [f64; 3], dt: f64, a: f64) -> f64
    ensures { result ≡ Courses.steeper w w2 dt a }
{
    let x = geom::norm3(geom::scale3(geom::sub3(w2, w), 1.0 / dt));
    float::max(a, x)
}

// The largest change of rate over the 16 steps, over a step's time.
pub fn steepest(nodes: [Node; SOLVER_NODES], dt: f64) -> f64
    ensures { result ≡ Courses.steepest nodes dt }
{
    let mut a = 0.0;
    for k in 0..16 {
        a = steeper(nodes[k].w, nodes[k + 1].w, dt, a);
    }
    a
}

// The acceleration that dense samples of an eigenaxis plan are asked for with.
fn alpha_of(a: Planned) -> f64
    ensures { result ≡ Courses.alpha_of a }
{
    let path = a.path;
    let nodes = path.nodes;
    steepest(nodes, path.duration / 16.0)
}

// The eigenaxis plan of a text, to take samples of.
pub fn plan_eigenaxis_course(text: &[u8], shape: Shape, ws: &mut [f64]) -> Course
    ensures value { result ≡ Courses.eigenaxis_course text.now shape (length ws.old) }
    ensures ws_after { ws.new ≡ Plans.leaves result.runs ws.old }
{
    let read = text_reader::read(text);
    let p = read.problem;
    let a = plan_eigenaxis_read(read, shape, ws);
    course_of(p, a, alpha_of(a))
}
