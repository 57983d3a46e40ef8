// A map's actuators in one table, whichever they are.
ghost use Rattle.std.specs.Prelude.{◌≡◌};
ghost use Rattle.reference.specs.Layouts as Layouts;

use actuators::ActuatorMap;
use common::{MAX_WHEELS, Refusal};

// The actuators in one table. Without any they are three thrusters along the body's axes, with the torque box as their limits.
#[derive(Clone, Copy)]
pub struct Layout {
    pub wheels: bool,
    pub count: usize,
    pub axes: [f64; 36],
    pub limits: [f64; 12],
    pub momentum_limits: [f64; 12],
    pub power_limits: [f64; 12],
    pub start: [f64; 12],
}

// 24 numbers, then zeros.
fn pad_axes(t: &[f64; 24]) -> [f64; 36]
    ensures { result ≡ Layouts.pad_axes t.now }
{
    let mut out = [0.0; 36];
    for i in 0..24 {
        out[i] = t[i];
    }
    out
}

// Eight numbers, then four zeros.
fn pad_to_twelve(v: [f64; 8]) -> [f64; 12]
    ensures { result ≡ Layouts.pad_to_twelve v }
{
    [
        v[0], v[1], v[2], v[3], v[4], v[5], v[6], v[7], 0.0, 0.0, 0.0, 0.0,
    ]
}

// A wheel's power limit; the largest f64 where none is declared.
fn power_limit(limit: Option<f64>) -> f64
    ensures { result ≡ Layouts.power_limit limit }
{
    limit.unwrap_or(1.7976931348623157e308)
}

// The power limits of eight wheels, then four zeros.
fn power_limits(powers: [Option<f64>; MAX_WHEELS]) -> [f64; 12]
    ensures { result ≡ Layouts.power_limits_value powers }
{
    let a = power_limit(powers[0]);
    let b = power_limit(powers[1]);
    let c = power_limit(powers[2]);
    let d = power_limit(powers[3]);
    let e = power_limit(powers[4]);
    let f = power_limit(powers[5]);
    let g = power_limit(powers[6]);
    let h = power_limit(powers[7]);
    [a, b, c, d, e, f, g, h, 0.0, 0.0, 0.0, 0.0]
}

// The body's axes.
fn body_axes() -> [f64; 36]
    ensures { result ≡ Layouts.body_axes }
{
    let mut out = [0.0; 36];
    out[0] = 1.0;
    out[4] = 1.0;
    out[8] = 1.0;
    out
}

// The body torques' limits.
fn body_limits(v: [f64; 3]) -> [f64; 12]
    ensures { result ≡ Layouts.body_limits v }
{
    [
        v[0], v[1], v[2], 0.0, 0.0, 0.0, 0.0, 0.0, 0.0, 0.0, 0.0, 0.0,
    ]
}

// Wheels alone.
fn wheel_layout(map: ActuatorMap, momenta: [f64; 8]) -> Layout
    ensures { result ≡ Layouts.wheel_layout map momenta }
{
    let axes = pad_axes(&map.wheel_axes);
    let limits = pad_to_twelve(map.wheel_torques);
    let momentum_limits = pad_to_twelve(map.wheel_momenta);
    let power_limits = power_limits(map.wheel_powers);
    let start = pad_to_twelve(momenta);
    Layout {
        wheels: true,
        count: map.wheel_count,
        axes,
        limits,
        momentum_limits,
        power_limits,
        start,
    }
}

// Thrusters of any count and axes.
fn thruster_layout(count: usize, axes: [f64; 36], limits: [f64; 12]) -> Layout
    ensures { result ≡ Layouts.thruster_layout count axes limits }
{
    let zeros = [0.0; 12];
    Layout {
        wheels: false,
        count,
        axes,
        limits,
        momentum_limits: zeros,
        power_limits: zeros,
        start: zeros,
    }
}

// The table of wheels or thrusters of any count, or of none: 8 of both kinds, 6 at place 1 of fewer than three.
fn axes_layout(map: ActuatorMap, momenta: [f64; 8], limit: [f64; 3]) -> Result<Layout, Refusal>
    ensures { result ≡ Layouts.axes_layout map momenta limit }
{
    let mixed = Refusal {
        number: 8,
        place: 0,
    };
    let too_few = Refusal {
        number: 6,
        place: 1,
    };
    if map.wheel_count == 0 {
        if map.thruster_count == 0 {
            return Ok(thruster_layout(3, body_axes(), body_limits(limit)));
        }
        if map.thruster_count < 3 {
            return Err(too_few);
        }
        return Ok(thruster_layout(map.thruster_count, map.thruster_axes, map.thruster_torques));
    }
    if map.thruster_count > 0 {
        return Err(mixed);
    }
    if map.wheel_count < 3 {
        return Err(too_few);
    }
    Ok(wheel_layout(map, momenta))
}

// The table of a map; 8 of a pyramid.
pub fn layout_of(map: ActuatorMap, momenta: [f64; 8], limit: [f64; 3]) -> Result<Layout, Refusal>
    ensures { result ≡ Layouts.layout_of map momenta limit }
{
    if let Some(_) = map.cmgs {
        return Err(Refusal {
            number: 8,
            place: 0,
        });
    }
    axes_layout(map, momenta, limit)
}
