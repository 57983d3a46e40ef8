// Arrays with one place more filled.
ghost use Rattle.std.specs.Prelude.{◌≡◌, set};

// The values with x in place k; where there is no such place, the values as they were.
pub fn put<T: Copy, const N: usize>(mut values: [T; N], k: usize, x: T) -> [T; N]
    ensures { result ≡ set values k x }
{
    if k < values.len() {
        values[k] = x;
    }
    values
}
