// The eigenaxis plan of a problem's text, put into bytes as `plan_text` puts a plan.
#![tactic(auto)]

ghost use Rattle.std.specs.Prelude.{◌≡◌, length};
ghost use Rattle.planner.specs.Plans as Plans;
ghost use Rattle.eigenaxis.specs.Ladders as Ladders;
ghost use Rattle.plan_text.specs.PlanTexts as PlanTexts;
ghost use Rattle.plan_text.specs.PlanTexts.{Tells};
ghost use Rattle.eigenaxis_text.specs.EigenaxisTexts as EigenaxisTexts;

use eigenaxis::plan_counted;
use eigenaxis_seed::Shape;
use plan_text::{Told, no_room, tell};
use planner::{Planned, refused};
use problem_text::Read;

// The plan of what was read about one axis. A text that is refused is refused before any run.
pub fn plan_eigenaxis_read(read: Read, shape: Shape, ws: &mut [f64]) -> Planned
    ensures value { result ≡ PlanTexts.of_read read (λ p. Ladders.counted (Ladders.plan_eigenaxis p shape (length ws.old))) }
    ensures ws_after { ws.new ≡ Plans.leaves result.runs ws.old }
{
    let fate = read.fate;
    match fate {
        Err(why) => refused(why, 0),
        Ok(()) => {
            let p = read.problem;
            plan_counted(p, shape, ws)
        }
    }
}

// The plan of a text about one axis: what `slew_eigenaxis` prints.
pub fn plan_eigenaxis_text(text: &[u8], shape: Shape, ws: &mut [f64], out: &mut [u8]) -> Told
    ensures { Tells (EigenaxisTexts.planned text.now shape) ws.old out.old result ws.new out.new }
{
    if out.len() < 16384 {
        return no_room();
    }
    let a = plan_eigenaxis_read(text_reader::read(text), shape, ws);
    tell(a, out)
}
