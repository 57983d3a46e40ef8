// Decisions: a duration and 16 rows of controls, packed in 193 numbers. Carried over from quatopsy-plan/src/scvx.rs (Apache-2.0), changed: a decision is
// kept packed, so `unpack` only holds the duration.
ghost use Rattle.std.specs.Prelude.{◌≡◌, ◌+◌, ◌*◌, ◌≤◌, ◌<◌, length};
ghost use Rattle.common.specs.Iter.{iter};
ghost use Rattle.actuators.specs.Maps.{control_dim};
ghost use Rattle.forward.specs.Decisions as Decisions;

use actuators::ActuatorMap;
use common::{Decision, STEPS};
use float::{clamp, max};

// The Rust's `unpack` of packed numbers: the duration is at least 1e-6.
pub fn unpack(values: Decision) -> Decision
    ensures { result ≡ Decisions.unpack values }
{
    let mut z = values;
    z[0] = max(z[0], 1.0e-6);
    z
}

// Every control of the 16 rows held to its limit, n to a row.
pub fn project_rows(map: ActuatorMap, n: usize, torque_limit: [f64; 3], z: Decision) -> Decision
    requires { (n ≡ control_dim map) × (n ≤ 12) }
    ensures { result ≡ iter (Decisions.project_turn map torque_limit) z 16 }
{
    let mut out = z;
    for k in 0..STEPS {
        let at = 1 + k * n;
        let end = at + n;
        controls::project_controls(map, &mut out[at..end], torque_limit);
    }
    out
}

// The duration held within 0.001..10,000 and every control to its limit.
pub fn project_decision(map: ActuatorMap, torque_limit: [f64; 3], z: Decision) -> Decision
    requires { control_dim map ≤ 12 }
    ensures { result ≡ Decisions.project_decision map torque_limit z }
{
    let n = actuators::control_dim(map);
    let mut out = z;
    out[0] = clamp(out[0], 1.0e-3, 1.0e4);
    project_rows(map, n, torque_limit, out)
}
