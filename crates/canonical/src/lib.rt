// One text for one problem: the canonical text of a problem's text.
#![tactic(auto)]

ghost use Rattle.std.specs.Prelude.{◌≡◌};
ghost use Rattle.canonical.specs.CanonicalTexts as CanonicalTexts;
ghost use Rattle.canonical.specs.CanonicalTexts.{Rewrites, Tells};

use actuators::Actuators;
use common::Refusal;
use problem::Problem;

pub mod writing;

use writing::write_problem;

// How a text was taken, and how many bytes of its canonical text were written.
#[derive(Clone, Copy)]
pub struct Told {
    pub fate: Result<(), Refusal>,
    pub bytes: usize,
}

// 1 where there are more than 8 wheels (place 0) or 12 thrusters (place 1).
fn counts_fate(a: Actuators) -> Result<(), Refusal>
    ensures { result ≡ CanonicalTexts.counts_fate a }
{
    if a.wheel_count > 8 {
        return Err(Refusal {
            number: 1,
            place: 0,
        });
    }
    if a.thruster_count > 12 {
        return Err(Refusal {
            number: 1,
            place: 1,
        });
    }
    Ok(())
}

// What was read, written anew; of a text that is refused with 21 nothing.
fn rewrite(fate: Result<(), Refusal>, p: Problem, out: &mut [u8]) -> Told
    ensures { Rewrites fate p out.old result out.new }
{
    match fate {
        Err(refusal) => Told {
            fate: Err(refusal),
            bytes: 0,
        },
        Ok(()) => {
            let bytes = write_problem(out, p);
            let actuators = p.actuators;
            Told {
                fate: counts_fate(actuators),
                bytes: bytes,
            }
        }
    }
}

// The canonical text of an accepted text; of one that is refused with 21 or 1 that refusal, and nothing is written. A buffer of less than 4,096 bytes gets
// nothing: 99.
pub fn canonical_text(text: &[u8], out: &mut [u8]) -> Told
    ensures { Tells text.now out.old result out.new }
{
    if out.len() < 4096 {
        return Told {
            fate: Err(Refusal {
                number: 99,
                place: 0,
            }),
            bytes: 0,
        };
    }
    let read = text_reader::read(text);
    let fate = read.fate;
    let p = read.problem;
    rewrite(fate, p, out)
}
