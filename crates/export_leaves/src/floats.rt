// The helpers on f64 and the square root.
ghost use Rattle.std.specs.Prelude.{◌≡◌};
ghost use Rattle.std.specs.Float.{binary64};
ghost use Rattle.std.specs.Float.Ieee.Scale.{finite};
ghost use Rattle.float.specs.Ops as Ops;
ghost use Rattle.float.specs.Sqrt as Sqrt;

pub fn slew_abs(x: f64) -> f64
    ensures { result ≡ Ops.abs x }
{
    float::abs(x)
}

pub fn slew_max(a: f64, b: f64) -> f64
    ensures { result ≡ Ops.max a b }
{
    float::max(a, b)
}

pub fn slew_min(a: f64, b: f64) -> f64
    ensures { result ≡ Ops.min a b }
{
    float::min(a, b)
}

pub fn slew_clamp(x: f64, low: f64, high: f64) -> f64
    ensures { result ≡ Ops.clamp low high x }
{
    float::clamp(x, low, high)
}

pub fn slew_is_finite(x: f64) -> bool
    ensures { result ≡ finite x }
{
    float::is_finite(x)
}

pub fn slew_ceil(x: f64) -> f64
    ensures { result ≡ Ops.ceil x }
{
    float::ceil(x)
}

pub fn slew_sqrt(x: f64) -> f64
    ensures { result ≡ Sqrt.sqrt binary64 x }
{
    float::sqrt(x)
}
