// How a leg is planned: by the search from the planner's own seed, or about one axis. It sees both planners only by their contracts.
ghost use Rattle.std.specs.Prelude.{◌≡◌, length};
ghost use Rattle.planner.specs.Plans as Plans;
ghost use Rattle.mosaic.specs.Ways as Ways;

use eigenaxis::plan_counted;
use eigenaxis_seed::Shape;
use planner::{Planned, plan};
use problem::Problem;

// The way: the search, or a shape of the rate about one axis.
#[derive(Clone, Copy)]
pub enum Way {
    Search,
    Eigenaxis(Shape),
}

// The plan of one slew by a way. About one axis its runs are those of every try.
pub fn plan_by(p: Problem, way: Way, ws: &mut [f64]) -> Planned
    ensures value { result ≡ Ways.planner_by way (length ws.old) p }
    ensures ws_after { ws.new ≡ Plans.leaves result.runs ws.old }
    ensures answers_by { Ways.AnswersBy way (length ws.old) p result }
{
    match way {
        Way::Search => plan(p, ws),
        Way::Eigenaxis(shape) => plan_counted(p, shape, ws),
    }
}
