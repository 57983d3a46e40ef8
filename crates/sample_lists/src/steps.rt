// What all samples between a node and the next have in common: the time between the two, the rate's change, and the inertia times that. A row of seven numbers a step.
ghost use Rattle.std.specs.Prelude.{◌≡◌, ◌<◌};
ghost use Rattle.sample_lists.specs.StagesInner as Stages;

use common::SOLVER_NODES;
use samples::nodes::{rate, rate_change, time};

// The numbers of the step from node i.
fn step_row(inertia: [[f64; 3]; 3], nodes: &[[f64; 22]; SOLVER_NODES], i: usize) -> [f64; 7]
    requires { i < 16 }
    ensures { result ≡ Stages.step_row inertia nodes.now i }
{
    let t0 = time(nodes, i);
    let dt = time(nodes, i + 1) - t0;
    let wd = rate_change(rate(nodes, i), rate(nodes, i + 1), dt);
    let u = geom::apply_tensor(inertia, wd);
    [dt, wd[0], wd[1], wd[2], u[0], u[1], u[2]]
}

// Those of all 16.
pub fn step_rows(inertia: [[f64; 3]; 3], nodes: &[[f64; 22]; SOLVER_NODES]) -> [[f64; 7]; 16]
    ensures { Stages.StepRows inertia nodes.now result }
{
    let mut out = [[0.0; 7]; 16];
    for i in 0..16 {
        out[i] = step_row(inertia, nodes, i);
    }
    out
}

// The time from node i to the next.
pub fn step_time(steps: &[[f64; 7]; 16], i: usize) -> f64
    requires { i < 16 }
    ensures { result ≡ Stages.step_time steps.now i }
{
    steps[i][0]
}

// The rate's change over it.
pub fn step_change(steps: &[[f64; 7]; 16], i: usize) -> [f64; 3]
    requires { i < 16 }
    ensures { result ≡ Stages.step_change steps.now i }
{
    [steps[i][1], steps[i][2], steps[i][3]]
}

// The inertia times that change.
pub fn step_torque(steps: &[[f64; 7]; 16], i: usize) -> [f64; 3]
    requires { i < 16 }
    ensures { result ≡ Stages.step_torque steps.now i }
{
    [steps[i][4], steps[i][5], steps[i][6]]
}
