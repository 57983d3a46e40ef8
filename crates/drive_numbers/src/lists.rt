// A path's whole list of samples for the drive board, into lent memory.
ghost use Rattle.std.specs.Prelude.{◌≡◌, length, ◌≤◌};
ghost use Rattle.drive_numbers.specs.Drive as Drive;
ghost use Rattle.drive_numbers.specs.Lists as Lists;

use super::drive_sample;
use common::{Refusal, SOLVER_NODES};
use samples::sample_count;

// How a list ended, and how many rows it has. No Result: rows are counted beside a refusal too, those before the refused sample.
#[derive(Clone, Copy)]
pub struct Listed {
    pub fate: Result<(), Refusal>,
    pub rows: usize,
}

// The rows of samples 0, 1 and on, up to the count or the first that is refused.
fn put_rows(
    inertia: [[f64; 3]; 3],
    tolerance: f64,
    duration: f64,
    nodes: &[[f64; 22]; SOLVER_NODES],
    requested: usize,
    alpha: f64,
    count: usize,
    out: &mut [[i32; 13]],
) -> Listed
    requires { count ≤ length out.old }
    ensures { Lists.Lists (Lists.listing (Drive.drive_sample inertia tolerance duration nodes.now requested alpha) count)
        out.old result out.new }
{
    for k in 0..count {
        match drive_sample(inertia, tolerance, duration, nodes, requested, alpha, k) {
            Err(why) => {
                return Listed {
                    fate: Err(why),
                    rows: k,
                };
            }
            Ok(row) => out[k] = row,
        }
    }
    Listed {
        fate: Ok(()),
        rows: count,
    }
}

// A refusal before the first row.
fn not_begun(number: usize) -> Listed
    ensures { result ≡ Lists.not_begun number }
{
    Listed {
        fate: Err(Refusal { number, place: 0 }),
        rows: 0,
    }
}

// The whole list: a row of 13 numbers a sample. Where it ends at a refused sample the rows before it stand. Fewer rows lent than there are samples get nothing, and 99 is told.
pub fn drive_list(
    inertia: [[f64; 3]; 3],
    tolerance: f64,
    duration: f64,
    nodes: &[[f64; 22]; SOLVER_NODES],
    requested: usize,
    alpha: f64,
    out: &mut [[i32; 13]],
) -> Listed
    ensures { Lists.Lists (Lists.drive_list inertia tolerance duration nodes.now requested alpha (length out.old))
        out.old result out.new }
{
    let Some(count) = sample_count(duration, requested, alpha) else {
        return not_begun(20);
    };
    if count > out.len() {
        return not_begun(99);
    }
    put_rows(
        inertia, tolerance, duration, nodes, requested, alpha, count, out,
    )
}
