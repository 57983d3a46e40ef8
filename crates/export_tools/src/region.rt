// reach_avoid: drive against draught. A function that can refuse answers 27, and leaves what was lent for the answer as it was, or 0. 255 stands for none: the
// turns of a start that is held off, a choice or a reply where there is none.
ghost use Rattle.std.specs.Prelude.{◌≡◌};
ghost use Rattle.reach_avoid.specs.Room as Room;
ghost use Rattle.reach_avoid.specs.Answers as Answers;
ghost use Rattle.export_leaves.specs.Outcomes.{Answered};
ghost use Rattle.export_tools.specs.Region as Region;

use reach_avoid::{OutOfRange, StartOutcome};

// A refusal's number, or 0, and then the turns and the first choice are put into what is lent for them.
fn put_start(s: Result<StartOutcome, OutOfRange>, turns: &mut usize, choice: &mut i64) -> usize
    ensures { Region.StartTold (Answers.of_start s) result turns.old turns.new choice.old choice.new }
{
    let Ok(told) = s else {
        return 27;
    };
    let (n, u) = match told {
        StartOutcome::Home => (0, 255),
        StartOutcome::Forced(n, u) => (n, u),
        StartOutcome::HeldOff => (255, 255),
    };
    *turns = n;
    *choice = u;
    0
}

// The fewest turns in which the drive forces home, and its first choice.
pub fn slew_outcome(angle: i64, rate: i64, turns: &mut usize, choice: &mut i64) -> usize
    ensures { Region.StartTold (Answers.of_start (Room.outcome (record { angle = angle; rate = rate }))) result
        turns.old turns.new choice.old choice.new }
{
    put_start(reach_avoid::outcome(angle, rate), turns, choice)
}

// A refusal's number, or 0, and then the reply is put into `out`.
fn put_reply(r: Result<Option<i64>, OutOfRange>, out: &mut i64) -> usize
    ensures { Answered (Answers.of_reply r) result out.old out.new }
{
    let Ok(d) = r else {
        return 27;
    };
    *out = d.unwrap_or(255);
    0
}

// The draught's lowest reply that holds the drive off for the turns that are left, this one counted.
pub fn slew_reply(angle: i64, rate: i64, left: usize, choice: i64, out: &mut i64) -> usize
    ensures { Answered (Answers.of_reply (Room.reply (record { angle = angle; rate = rate }) left choice)) result out.old out.new }
{
    put_reply(reach_avoid::reply(angle, rate, left, choice), out)
}

// The fewest turns of every start, a byte each: that of angle a and rate r is number (a + 64) * 17 + (r + 8).
pub fn slew_region(out: &mut [u8; 2193])
    ensures { out.new ≡ Room.region }
{
    *out = reach_avoid::region();
}
