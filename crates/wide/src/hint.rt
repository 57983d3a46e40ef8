// A hint at a square root, in floats: nothing is proved of it, and nothing has to be. Whoever uses it tests what it gives.
ghost use Rattle.std.specs.Prelude.{◌<◌};

// About the root of the number whose pattern is b, within 2 units in the last place in every case tried: 1 over the root by half of the pattern and a cubic, then two
// terms of the series of what is left, each ready as soon as what is left is.
pub fn root_hint(b: u64) -> f64
    requires { b < 0x7ff0_0000_0000_0000 }
{
    let f = f64::from_bits(b);
    let y = f64::from_bits(0x5fe4_2000_0000_0000 - (b >> 1));
    let t = f * y;
    let h = t * y;
    let p = (2.4399868471619186 - 3.0344360006254405 * h)
        + (h * h) * (2.2629175349557507 - 0.6692806640504173 * h);
    let s = t * p;
    let i = y * p;
    let e = f - s * s;
    (s + e * (0.5 * i)) + (e * e) * ((0.375 * i) * (i * i))
}
