// The end checks of a found decision's run: 14, 15 and 16, then 17 to 19 node by node. Carried over from the tail of `solve` of
// quatopsy-plan/src/scvx.rs (Apache-2.0), changed: refusals are numbers with their node.
#![tactic(auto)]

ghost use Rattle.std.specs.Prelude.{◌≡◌, true};
ghost use Rattle.actuators.specs.Maps.{is_sized};
ghost use Rattle.end_checks.specs.Ends as Ends;

use actuators::ActuatorMap;
use common::{DEFECT_TOL, Refusal, SOLVER_NODES, STEPS};
use forward::{Node, Run};
use problem::CheckedProblem;

// The largest attitude error and the largest rate at a path's end.
const ATT_TOL: f64 = 1.0e-4;

const RATE_TOL: f64 = 1.0e-4;

// Whether the rate is above the slew limit, where there is one, by more than 1e-9.
fn too_fast(slew: Option<f64>, w: [f64; 3]) -> bool
    ensures { result ≡ Ends.too_fast slew w }
{
    match slew {
        None => false,
        Some(limit) => geom::norm3(w) > limit + 1.0e-9,
    }
}

// Whether a wheel's momentum is above its limit by more than 1e-9.
fn over_momentum(map: ActuatorMap, hw: [f64; 8]) -> bool
    requires { is_sized map ≡ true }
    ensures { result ≡ Ends.too_much map hw }
{
    control_limits::momentum_excess(&map.wheel_momenta, map.wheel_count, &hw) > 1.0e-9
}

// Torque, rate and momenta of node k against their limits.
fn node_fate(p: CheckedProblem, node: Node, k: usize) -> Result<(), Refusal>
    requires { is_sized p.map ≡ true }
    ensures { result ≡ Ends.node_fate p node k }
{
    if geom::torque_excess(node.tau, p.torque_limit) > 1.0e-9 {
        return Err(Refusal {
            number: 17,
            place: k,
        });
    }
    if too_fast(p.slew, node.w) {
        return Err(Refusal {
            number: 18,
            place: k,
        });
    }
    if over_momentum(p.map, node.hw) {
        return Err(Refusal {
            number: 19,
            place: k,
        });
    }
    Ok(())
}

// The 17 nodes in their order; the first refusal stays.
fn nodes_fate(p: CheckedProblem, nodes: [Node; SOLVER_NODES]) -> Result<(), Refusal>
    requires { is_sized p.map ≡ true }
    ensures { result ≡ Ends.nodes_fate p nodes }
{
    for k in 0..SOLVER_NODES {
        node_fate(p, nodes[k], k)?;
    }
    Ok(())
}

// The end rate, the largest defect, then the nodes.
fn rest_fate(p: CheckedProblem, run: Run) -> Result<(), Refusal>
    requires { is_sized p.map ≡ true }
    ensures { result ≡ Ends.rest_fate p run }
{
    let nodes = run.nodes;
    if geom::norm3(nodes[STEPS].w) > RATE_TOL {
        return Err(Refusal {
            number: 15,
            place: 0,
        });
    }
    if run.defect > DEFECT_TOL {
        return Err(Refusal {
            number: 16,
            place: 0,
        });
    }
    nodes_fate(p, nodes)
}

// The end checks of a run that went on: the end attitude, then the rest.
pub fn end_checks(p: CheckedProblem, run: Run) -> Result<(), Refusal>
    requires { is_sized p.map ≡ true }
    ensures { result ≡ Ends.end_fate p run }
{
    let nodes = run.nodes;
    match geom::rotation_between(nodes[STEPS].q, p.qf) {
        None => Err(Refusal {
            number: 11,
            place: 0,
        }),
        Some((a, b, c)) => {
            if geom::norm3([a, b, c]) > ATT_TOL {
                return Err(Refusal {
                    number: 14,
                    place: 0,
                });
            }
            rest_fate(p, run)
        }
    }
}
