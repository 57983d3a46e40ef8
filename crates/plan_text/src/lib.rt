// What the programs and the C interface share: a problem's text is read, planned, and its answer put into bytes or numbers that the caller lends.
#![tactic(auto)]

ghost use Rattle.std.specs.Prelude.{◌≡◌, ◌≤◌, length};
ghost use Rattle.common.specs.Refusals.{refusal};
ghost use Rattle.planner.specs.Plans as Plans;
ghost use Rattle.text_writer.specs.Puts.{Puts};
ghost use Rattle.plan_text.specs.PlanTexts as PlanTexts;
ghost use Rattle.plan_text.specs.PlanTexts.{Prints, Tells, planned, planned_from};

use common::Refusal;
use planner::{Path, Planned, plan, plan_from, refused};
use problem::Problem;
use problem_text::Read;
use text_writer::{write_path, write_refused};

// How a text's plan ended, the forward runs begun, and how many bytes were written.
#[derive(Clone, Copy)]
pub struct Told {
    pub fate: Result<(), Refusal>,
    pub runs: usize,
    pub bytes: usize,
}

// A found path.
fn print_path(runs: usize, path: Path, out: &mut [u8]) -> usize
    ensures { Puts out.old 0 (PlanTexts.path_text runs path) 9970 out.new result }
{
    let z = path.z;
    let nodes = path.nodes;
    write_path(
        out,
        runs,
        path.iterations,
        path.controls,
        path.wheels,
        z,
        nodes,
    )
}

// A refusal.
pub fn tell_refused(number: usize, place: usize, runs: usize, out: &mut [u8]) -> Told
    ensures { Prints (Plans.refused (refusal number place) runs) out.old result out.new }
{
    let bytes = write_refused(out, number, place, runs);
    Told {
        fate: Err(Refusal { number, place }),
        runs: runs,
        bytes: bytes,
    }
}

// A plan's answer.
pub fn tell(a: Planned, out: &mut [u8]) -> Told
    ensures { Prints a out.old result out.new }
{
    let fate = a.fate;
    match fate {
        Err(refusal) => tell_refused(refusal.number, refusal.place, a.runs, out),
        Ok(()) => {
            let path = a.path;
            let bytes = print_path(a.runs, path, out);
            Told {
                fate: Ok(()),
                runs: a.runs,
                bytes: bytes,
            }
        }
    }
}

// Nothing is written to a buffer that is too short, and no run begins.
pub fn no_room() -> Told
    ensures { result ≡ PlanTexts.no_room }
{
    Told {
        fate: Err(Refusal {
            number: 99,
            place: 0,
        }),
        runs: 0,
        bytes: 0,
    }
}

// The plan of what was read, from our own seed. A text that is refused is refused before any run.
pub fn plan_read(read: Read, ws: &mut [f64]) -> Planned
    ensures value { result ≡ PlanTexts.of_read read (λ p. Plans.plan p (length ws.old)) }
    ensures ws_after { ws.new ≡ Plans.leaves result.runs ws.old }
{
    let fate = read.fate;
    match fate {
        Err(why) => refused(why, 0),
        Ok(()) => {
            let p = read.problem;
            plan(p, ws)
        }
    }
}

// The plan of a text from our own seed: what `slew` prints.
pub fn plan_text(text: &[u8], ws: &mut [f64], out: &mut [u8]) -> Told
    ensures { Tells (planned text.now) ws.old out.old result ws.new out.new }
{
    if out.len() < 16384 {
        return no_room();
    }
    let a = plan_read(text_reader::read(text), ws);
    tell(a, out)
}

// The plan of a problem from a caller's seed: a duration, 17 rates and 17 torques, 103 numbers. Another count is handed on as a seed of no nodes.
pub fn plan_seeded(p: Problem, seed: &[f64], ws: &mut [f64]) -> Planned
    ensures { (result ≡ PlanTexts.from_seed p seed.now (length ws.old)) × (ws.new ≡ Plans.leaves result.runs ws.old) }
{
    if seed.len() != 103 {
        return plan_from(p, 0.0, &seed[..0], &seed[..0], ws);
    }
    plan_from(p, seed[0], &seed[1..52], &seed[52..103], ws)
}

// The plan of what was read, from a caller's seed.
fn plan_read_from(read: Read, seed: &[f64], ws: &mut [f64]) -> Planned
    ensures value { result ≡ PlanTexts.of_read read (λ p. PlanTexts.from_seed p seed.now (length ws.old)) }
    ensures ws_after { ws.new ≡ Plans.leaves result.runs ws.old }
{
    let fate = read.fate;
    match fate {
        Err(why) => refused(why, 0),
        Ok(()) => {
            let p = read.problem;
            plan_seeded(p, seed, ws)
        }
    }
}

// The plan of a text from a caller's seed.
pub fn plan_text_from(text: &[u8], seed: &[f64], ws: &mut [f64], out: &mut [u8]) -> Told
    ensures { Tells (planned_from text.now seed.now) ws.old out.old result ws.new out.new }
{
    if out.len() < 16384 {
        return no_room();
    }
    let a = plan_read_from(text_reader::read(text), seed, ws);
    tell(a, out)
}
