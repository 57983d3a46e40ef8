// Sums of products of columns over the residual rows in order: eight cells of the normal matrix at a time.
ghost use Rattle.std.specs.Prelude.{◌≡◌, ◌+◌, ◌*◌, ◌≤◌, ◌<◌, length};
ghost use Rattle.common.specs.Lists.{at};
ghost use Rattle.normal_equations.specs.FilledInner.{Filled};
ghost use Rattle.normal_equations.specs.Inner as Inner;
ghost use Rattle.normal_equations.specs.Normal as Normal;

// Eight sums at once: four of one column, then four of the next.
#[derive(Clone, Copy)]
struct Eight {
    a: f64,
    b: f64,
    c: f64,
    d: f64,
    e: f64,
    f: f64,
    g: f64,
    h: f64,
}

// The sum of the products of p and q in order, from +0.0.
pub fn dot(p: &[f64], q: &[f64]) -> f64
    requires { length p.now ≤ length q.now }
    ensures { result ≡ Normal.dot (length p.now) p.now q.now }
{
    let mut s = 0.0;
    for i in 0..p.len() {
        s += p[i] * q[i];
    }
    s
}

// The same of two columns, o and p, against four.
fn dot8(o: &[f64], p: &[f64], q: &[f64], t: &[f64], u: &[f64], v: &[f64]) -> Eight
    requires { (length p.now ≡ length o.now)
        × (length o.now ≤ length q.now)
        × (length o.now ≤ length t.now)
        × (length o.now ≤ length u.now)
        × (length o.now ≤ length v.now) }
    ensures { (Inner.Dots o.now q.now t.now u.now v.now result.a result.b result.c result.d)
        × (Inner.Dots p.now q.now t.now u.now v.now result.e result.f result.g result.h) }
{
    let mut a = 0.0;
    let mut b = 0.0;
    let mut c = 0.0;
    let mut d = 0.0;
    let mut e = 0.0;
    let mut f = 0.0;
    let mut g = 0.0;
    let mut h = 0.0;
    for i in 0..o.len() {
        let x = o[i];
        let y = p[i];
        let w = q[i];
        let z = t[i];
        let k = u[i];
        let l = v[i];
        a += x * w;
        b += x * z;
        c += x * k;
        d += x * l;
        e += y * w;
        f += y * z;
        g += y * k;
        h += y * l;
    }
    Eight {
        a,
        b,
        c,
        d,
        e,
        f,
        g,
        h,
    }
}

// Cells d to d + 3 of the rows of columns o and p.
fn eight_at(o: &[f64], p: &[f64], j: &[f64], d: usize, row: &mut [f64], next: &mut [f64])
    requires { (d + 4 ≤ length row.old)
        × (d + 4 ≤ length next.old)
        × (length p.now ≡ length o.now)
        × (d * length o.now + 4 * length o.now ≤ length j.now) }
    ensures { (Filled (Inner.cells_of o.now j.now) d (d + 4) (at row.old) (at row.new))
        × (Filled (Inner.cells_of p.now j.now) d (d + 4) (at next.old) (at next.new)) }
{
    let m = o.len();
    let q = d * m;
    let t = q + m;
    let u = t + m;
    let v = u + m;
    let e = v + m;
    let s = dot8(o, p, &j[q..t], &j[t..u], &j[u..v], &j[v..e]);
    row[d] = s.a;
    row[d + 1] = s.b;
    row[d + 2] = s.c;
    row[d + 3] = s.d;
    next[d] = s.e;
    next[d + 1] = s.f;
    next[d + 2] = s.g;
    next[d + 3] = s.h;
}

// Cells from `from` on by fours, of both rows: the place after the last.
fn eights(o: &[f64], p: &[f64], j: &[f64], from: usize, row: &mut [f64], next: &mut [f64]) -> usize
    requires { (from ≤ length row.old)
        × (length next.old ≡ length row.old)
        × (length p.now ≡ length o.now)
        × (length j.now ≡ length row.old * length o.now) }
    ensures { (from ≤ result)
        × (result ≤ length row.old)
        × (Filled (Inner.cells_of o.now j.now) from result (at row.old) (at row.new))
        × (Filled (Inner.cells_of p.now j.now) from result (at next.old) (at next.new)) }
{
    let turns = (row.len() - from) / 4;
    for t in 0..turns {
        eight_at(o, p, j, from + 4 * t, row, next);
    }
    from + 4 * turns
}

// The cells that are left.
fn ones(p: &[f64], j: &[f64], from: usize, row: &mut [f64])
    requires { (from ≤ length row.old) × (length j.now ≡ length row.old * length p.now) }
    ensures { Filled (Inner.cells_of p.now j.now) from (length row.old) (at row.old) (at row.new) }
{
    let m = p.len();
    for d in from..row.len() {
        row[d] = dot(p, &j[d * m..d * m + m]);
    }
}

// Row c of the sums alone, from the diagonal on.
pub fn sum_row(j: &[f64], m: usize, c: usize, row: &mut [f64])
    requires { (c < length row.old) × (length j.now ≡ length row.old * m) }
    ensures { Inner.Summed m j.now c c (length row.old) row.new }
{
    let s = c * m;
    let e = s + m;
    ones(&j[s..e], j, c, row);
}

// Rows c and c + 1 of the sums, from column c on.
pub fn sums(j: &[f64], m: usize, c: usize, row: &mut [f64], next: &mut [f64])
    requires { (c + 1 < length row.old) × (length next.old ≡ length row.old) × (length j.now ≡ length row.old * m) }
    ensures { (Inner.Summed m j.now c c (length row.old) row.new)
        × (Inner.Summed m j.now (c + 1) c (length row.old) next.new) }
{
    let s = c * m;
    let e = s + m;
    let z = e + m;
    let from = eights(&j[s..e], &j[e..z], j, c, row, next);
    ones(&j[s..e], j, from, row);
    ones(&j[e..z], j, from, next);
}
