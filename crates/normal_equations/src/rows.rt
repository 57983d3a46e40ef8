// Rows of numbers that lie one after the other in a lent part.
ghost use Rattle.std.specs.Prelude.{◌≡◌, ◌+◌, ◌*◌, ◌≤◌, length};
ghost use Rattle.normal_equations.specs.FilledInner.{OneRow};
ghost use Rattle.normal_equations.specs.Rows.{row};

// to becomes from.
pub fn copy(to: &mut [f64], from: &[f64])
    requires { length from.now ≡ length to.old }
    ensures { to.new ≡ from.now }
{
    // `copy_from_slice` would make the archives call `memmove`, and they name `memcpy` and `memset` alone.
    for i in 0..to.len() {
        to[i] = from[i];
    }
}

// Row c of the rows in a becomes line.
pub fn put_row(a: &mut [f64], c: usize, line: &[f64])
    requires { c * length line.now + length line.now ≤ length a.old }
    ensures { OneRow c line.now (row (length line.now) a.old) (row (length line.now) a.new) }
{
    let s = c * line.len();
    let e = s + line.len();
    copy(&mut a[s..e], line);
}
