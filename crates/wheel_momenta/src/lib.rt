// The wheels' momenta from one slew to the next: those that a path ends with, and a problem that starts with given ones.
#![tactic(auto)]

ghost use Rattle.std.specs.Prelude.{◌≡◌};
ghost use Rattle.wheel_momenta.specs.Successive as Successive;

use common::STEPS;
use planner::Path;
use problem::{Momenta, Problem};

// The momenta that a path ends with: those of node 16, one a wheel.
pub fn last_momenta(path: Path) -> Momenta
    ensures { result ≡ Successive.last_momenta path }
{
    let nodes = path.nodes;
    let node = nodes[STEPS];
    let at = node.hw;
    Momenta {
        count: path.wheels,
        at: at,
    }
}

// The problem, its wheels starting with the momenta m.
pub fn with_momenta(p: Problem, m: Momenta) -> Problem
    ensures { result ≡ Successive.with_momenta p m }
{
    let mut q = p;
    q.momenta = m;
    q
}
