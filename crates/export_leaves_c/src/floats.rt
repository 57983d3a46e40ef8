// The helpers on f64 and the square root (`export_leaves::floats`).
ghost use Rattle.std.specs.Prelude.{◌≡◌};
ghost use Rattle.std.specs.Float.{binary64};
ghost use Rattle.std.specs.Float.Ieee.Scale.{finite};
ghost use Rattle.float.specs.Ops as Ops;
ghost use Rattle.float.specs.Sqrt as Sqrt;

#[unsafe(no_mangle)]
pub extern "C" fn slew_abs(x: f64) -> f64
    ensures { result ≡ Ops.abs x }
{
    export_leaves::floats::slew_abs(x)
}

#[unsafe(no_mangle)]
pub extern "C" fn slew_max(a: f64, b: f64) -> f64
    ensures { result ≡ Ops.max a b }
{
    export_leaves::floats::slew_max(a, b)
}

#[unsafe(no_mangle)]
pub extern "C" fn slew_min(a: f64, b: f64) -> f64
    ensures { result ≡ Ops.min a b }
{
    export_leaves::floats::slew_min(a, b)
}

#[unsafe(no_mangle)]
pub extern "C" fn slew_clamp(x: f64, low: f64, high: f64) -> f64
    ensures { result ≡ Ops.clamp low high x }
{
    export_leaves::floats::slew_clamp(x, low, high)
}

#[unsafe(no_mangle)]
pub extern "C" fn slew_is_finite(x: f64) -> bool
    ensures { result ≡ finite x }
{
    export_leaves::floats::slew_is_finite(x)
}

#[unsafe(no_mangle)]
pub extern "C" fn slew_ceil(x: f64) -> f64
    ensures { result ≡ Ops.ceil x }
{
    export_leaves::floats::slew_ceil(x)
}

#[unsafe(no_mangle)]
pub extern "C" fn slew_sqrt(x: f64) -> f64
    ensures { result ≡ Sqrt.sqrt binary64 x }
{
    export_leaves::floats::slew_sqrt(x)
}
