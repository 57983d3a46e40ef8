// The gimbal angles of a decision's run, worked out once: decisions that differ from it in one number share most of them, and their runs look the sines up.
ghost use Rattle.std.specs.Prelude.{◌≡◌, true, ◌+◌, ◌≤◌, length};
ghost use Rattle.actuators.specs.Maps.{control_dim, is_sized};
ghost use Rattle.gimbal_angles.specs.Known.{KnownOf, Filled};

use actuators::{ActuatorMap, CmgPyramid, control_dim};
use common::{Decision, STEPS};
use forward::steps::gimbals_next;
use gimbal_angles::{KnownAngles, put_angles};

// The angles that the decision z gives, step by step as the step law has them: n controls a row, the first gimbal rate at `first`.
fn fill_angles(n: usize, first: usize, z: &[f64], lut: &mut KnownAngles)
    requires { (first + 3 ≤ n) × ((n ≤ 12) × ((length z.now ≡ 193) × (length lut.old ≡ 192))) }
    ensures { Filled 64 lut.new }
{
    let dt = z[0] / 16.0;
    let mut delta = [0.0; 4];
    for k in 0..STEPS {
        let at = first + k * n;
        let past = at + 4;
        let next = gimbals_next(&z[at..past], delta, dt);
        put_angles(lut, k, next);
        delta = next;
    }
}

// The table of the gimbal angles of the decision z; with no pyramid it stays as it is, and nothing reads it.
pub fn know_angles(map: ActuatorMap, z: &Decision, lut: &mut KnownAngles)
    requires { (is_sized map ≡ true) × ((control_dim map ≤ 12) × (length lut.old ≡ 192)) }
    ensures { (length lut.new ≡ 192) × KnownOf map.cmgs lut.new }
{
    let cmgs = map.cmgs;
    match cmgs {
        None => {}
        Some(_) => {
            let n = control_dim(map);
            fill_angles(n, 1 + map.wheel_count + map.thruster_count, z, lut);
        }
    }
}
