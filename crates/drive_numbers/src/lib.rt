// Dense samples as the drive board takes them: 32-bit signed numbers of a fixed unit, 2^-30 for an attitude's parts and 2^-20 for all others.
#![tactic(auto)]

ghost use Rattle.std.specs.Prelude.{◌≡◌, ◌≤◌, ◌^◌};
ghost use Rattle.drive_numbers.specs.Numbers as Numbers;
ghost use Rattle.drive_numbers.specs.Drive as Drive;
ghost use Rattle.drive_numbers.specs.Inner as Inner;

use common::{Refusal, SOLVER_NODES};
use geom::Quat;
use samples::PathSample;

pub mod lists;

// The size of one: 2^-30 (attitude), 2^-20 (rate, torque, momentum).
#[derive(Clone, Copy)]
pub enum Unit {
    Fine,
    Coarse,
}

// n, or -n, where 32 bits hold it.
fn placed(minus: bool, n: u64) -> Option<i32>
    requires { n ≤ 2 ^ 32 }
    ensures { result ≡ Numbers.placed minus n }
{
    if minus {
        if n <= 2147483648 {
            Some((0 - (n as i64)) as i32)
        } else {
            None
        }
    } else if n <= 2147483647 {
        Some(n as i32)
    } else {
        None
    }
}

// The size of x; a zero keeps its sign. It compiles to no branch, which `float::abs` does.
fn size(x: f64) -> f64
    ensures { result ≡ Inner.size x }
{
    if x < 0.0 { -x } else { x }
}

// The number of units nearest to x, a tie to the even one. The sum's last digit has the unit's weight, so the addition rounds, and the sum's
// pattern counts the units.
pub fn part(x: f64, unit: Unit) -> Option<i32>
    ensures { result ≡ Numbers.part x unit }
{
    let a = size(x);
    let minus = x < 0.0;
    match unit {
        Unit::Fine => {
            if a < 4.0 {
                placed(minus, f64::to_bits(a + 4194304.0) - 0x4150_0000_0000_0000)
            } else {
                None
            }
        }
        Unit::Coarse => {
            if a < 4096.0 {
                placed(
                    minus,
                    f64::to_bits(a + 4294967296.0) - 0x41f0_0000_0000_0000,
                )
            } else {
                None
            }
        }
    }
}

// The float that a number of units stands for.
pub fn read_back(n: i32, unit: Unit) -> f64
    ensures { result ≡ Numbers.read_back_value n unit }
{
    match unit {
        Unit::Fine => (n as f64) * 9.31322574615478515625e-10,
        Unit::Coarse => (n as f64) * 9.5367431640625e-7,
    }
}

// An attitude's numbers.
fn attitude(q: Quat) -> Option<[i32; 4]>
    ensures { result ≡ Inner.attitude_row q }
{
    Some([
        part(q.w, Unit::Fine)?,
        part(q.x, Unit::Fine)?,
        part(q.y, Unit::Fine)?,
        part(q.z, Unit::Fine)?,
    ])
}

// A vector's.
fn vector(v: [f64; 3]) -> Option<[i32; 3]>
    ensures { result ≡ Inner.vector_row v }
{
    Some([
        part(v[0], Unit::Coarse)?,
        part(v[1], Unit::Coarse)?,
        part(v[2], Unit::Coarse)?,
    ])
}

// A sample's numbers, in a printed node's order without the time.
fn row(s: PathSample) -> Option<[i32; 13]>
    ensures { result ≡ Inner.sample_row s }
{
    let a = attitude(s.q)?;
    let b = vector(s.w)?;
    let c = vector(s.tau)?;
    let d = vector(s.h)?;
    Some([
        a[0], a[1], a[2], a[3], b[0], b[1], b[2], c[0], c[1], c[2], d[0], d[1], d[2],
    ])
}

// A sample's numbers, or 24.
fn numbered(s: PathSample, index: usize) -> Result<[i32; 13], Refusal>
    ensures { result ≡ Drive.numbered s index }
{
    row(s).ok_or(Refusal {
        number: 24,
        place: index,
    })
}

// A sample that was asked for under this number, as the drive board takes it: its own refusal comes first.
pub fn drive(made: Result<PathSample, Refusal>, index: usize) -> Result<[i32; 13], Refusal>
    ensures { result ≡ Drive.drive made index }
{
    numbered(made?, index)
}

// Sample number index of a path.
pub fn drive_sample(
    inertia: [[f64; 3]; 3],
    tolerance: f64,
    duration: f64,
    nodes: &[[f64; 22]; SOLVER_NODES],
    requested: usize,
    alpha: f64,
    index: usize,
) -> Result<[i32; 13], Refusal>
    ensures { result ≡ Drive.drive_sample inertia tolerance duration nodes.now requested alpha index }
{
    let made = samples::sample(inertia, tolerance, duration, nodes, requested, alpha, index);
    drive(made, index)
}
