// The seed's decision: each node's body torque allocated to the actuators and held to its limits. Carried over from the head of `solve` of
// quatopsy-plan/src/scvx.rs (Apache-2.0), changed: the decision is packed, and whether the actuators are served is asked once.
#![tactic(auto)]

ghost use Rattle.std.specs.Prelude.{◌≡◌, ◌+◌, ◌*◌, ◌≤◌, ◌<◌, length, take};
ghost use Rattle.common.specs.Iter.{iter};
ghost use Rattle.actuators.specs.Maps.{control_dim};
ghost use Rattle.seeds.specs.Seeds as Seeds;

use actuators::{ActuatorMap, allocate_body_torque, control_dim};
use common::{DECISION_NUMBERS, Decision, Refusal, STEPS};
use forward::decisions::project_rows;
use held_counts::held_counts;

// The seed's decision, and how many of its 16 controls at each place of a row were held to their limits.
#[derive(Clone, Copy)]
pub struct SeedDecision {
    pub z: Decision,
    pub held: [usize; 12],
}

// Whether the actuators are served: 8, or 6 at place 1, where they are not.
pub fn served(map: ActuatorMap) -> Result<(), Refusal>
    ensures { result ≡ Seeds.served map }
{
    allocate_body_torque(map, [0.0; 3])?;
    Ok(())
}

// The lent row becomes the first numbers of u.
fn put_row(row: &mut [f64], u: [f64; 20])
    requires { length row.old ≤ 20 }
    ensures { row.new ≡ take (length row.old) u }
{
    let n = row.len();
    row.copy_from_slice(&u[..n]);
}

// The controls that give node k's torque, of three numbers a node.
fn row_of(map: ActuatorMap, torques: &[f64], k: usize) -> [f64; 20]
    requires { (k < 16) × (48 ≤ length torques.now) }
    ensures { result ≡ Seeds.row_at map torques.now k }
{
    let i = 3 * k;
    allocate_body_torque(map, [torques[i], torques[i + 1], torques[i + 2]]).unwrap_or([0.0; 20])
}

// The 16 rows allocated, n controls to a row.
fn allocate_rows(map: ActuatorMap, n: usize, torques: &[f64], z: Decision) -> Decision
    requires { (n ≡ control_dim map) × ((n ≤ 12) × (48 ≤ length torques.now)) }
    ensures { result ≡ iter (Seeds.allocate_turn map torques.now) z 16 }
{
    let mut out = z;
    for k in 0..STEPS {
        let at = 1 + k * n;
        put_row(&mut out[at..at + n], row_of(map, torques, k));
    }
    out
}

// The seed's duration as it stands, with its 16 rows allocated and held to their limits; and how many were held.
pub fn seed_decision(
    map: ActuatorMap,
    torque_limit: [f64; 3],
    duration: f64,
    torques: &[f64],
) -> SeedDecision
    requires { (control_dim map ≤ 12) × (48 ≤ length torques.now) }
    ensures z_value { result.z ≡ Seeds.seed_decision map torque_limit duration torques.now }
    ensures held_value { result.held ≡ Seeds.seed_held map torque_limit duration torques.now }
{
    let n = control_dim(map);
    let mut z = [0.0; DECISION_NUMBERS];
    z[0] = duration;
    let rows = allocate_rows(map, n, torques, z);
    let projected = project_rows(map, n, torque_limit, rows);
    let held = held_counts(map, torque_limit, &rows);
    SeedDecision { z: projected, held }
}
