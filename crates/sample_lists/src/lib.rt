// All dense samples of a path as one list, into lent memory: what `samples::sample` gives for each index. The count is taken once, what is the same for all samples between
// two nodes is formed once, and the search for a sample's interval goes on from the one before.
#![tactic(auto)]

ghost use Rattle.std.specs.Prelude.{◌≡◌, ◌<◌, ◌≤◌, length};
ghost use Rattle.sample_lists.specs.Lists as Lists;
ghost use Rattle.sample_lists.specs.StagesInner as Stages;

use self::stages::{finish, numbers, place, turn, unplaced, unturned};
use self::steps::step_rows;
use common::{Refusal, SOLVER_NODES};
use samples::sample_count;

pub mod stages;
pub mod steps;

// How a list ended, and how many rows it has. No Result: rows are counted beside a refusal too, those before the refused sample.
#[derive(Clone, Copy)]
pub struct Listed {
    pub fate: Result<(), Refusal>,
    pub rows: usize,
}

// A refusal before the first row.
fn not_begun(number: usize) -> Listed
    ensures { result ≡ Lists.not_begun number }
{
    Listed {
        fate: Err(Refusal { number, place: 0 }),
        rows: 0,
    }
}

// The index k, or the last one where there is no such sample.
fn held_index(k: usize, count: usize) -> usize
    requires { 0 < count }
    ensures { (result < count) × (k < count → result ≡ k) }
{
    if k < count { k } else { count - 1 }
}

// The rows of samples 0, 1 and on, up to the count or the first that is refused. Three samples are under way at a time: while one is finished the next is turned and the one after it
// placed. The last stages of a sample wait for its first ones, but not for another's.
fn put_rows(
    inertia: [[f64; 3]; 3],
    tolerance: f64,
    duration: f64,
    nodes: &[[f64; 22]; SOLVER_NODES],
    count: usize,
    out: &mut [[f64; 14]],
) -> Listed
    requires { (0 < count) × (count ≤ 100000) × (count ≤ length out.old) }
    ensures { Lists.Lists (Stages.timed_list inertia tolerance duration nodes.now count) out.old result out.new }
{
    let steps = step_rows(inertia, nodes);
    let mut placed = unplaced();
    let mut turning = unturned();
    for j in 0..count + 2 {
        let turned = turn(placed);
        let next = place(
            duration,
            nodes,
            &steps,
            count,
            placed.i,
            placed.t,
            held_index(j, count),
        );
        if 2 <= j {
            match finish(inertia, tolerance, nodes, &steps, turning, j - 2) {
                Err(why) => {
                    return Listed {
                        fate: Err(why),
                        rows: j - 2,
                    };
                }
                Ok(sample) => out[j - 2] = numbers(sample),
            }
        }
        turning = turned;
        placed = next;
    }
    Listed {
        fate: Ok(()),
        rows: count,
    }
}

// The whole list: a row of 14 numbers a sample. Where it ends at a refused sample the rows before it stand. Fewer rows lent than there are samples get nothing, and 99 is told.
pub fn sample_list(
    inertia: [[f64; 3]; 3],
    tolerance: f64,
    duration: f64,
    nodes: &[[f64; 22]; SOLVER_NODES],
    requested: usize,
    alpha: f64,
    out: &mut [[f64; 14]],
) -> Listed
    ensures { Lists.Gives inertia tolerance duration nodes.now requested alpha out.old result out.new }
{
    let Some(count) = sample_count(duration, requested, alpha) else {
        return not_begun(20);
    };
    if count > out.len() {
        return not_begun(99);
    }
    put_rows(inertia, tolerance, duration, nodes, count, out)
}
