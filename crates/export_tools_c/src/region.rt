// Drive against draught (`export_tools::region`).
ghost use Rattle.std.specs.Prelude.{◌≡◌};
ghost use Rattle.reach_avoid.specs.Room as Room;
ghost use Rattle.reach_avoid.specs.Answers as Answers;
ghost use Rattle.export_leaves.specs.Outcomes.{Answered};
ghost use Rattle.export_tools.specs.Region as Region;

#[unsafe(no_mangle)]
pub extern "C" fn slew_outcome(angle: i64, rate: i64, turns: &mut usize, choice: &mut i64) -> usize
    ensures { Region.StartTold (Answers.of_start (Room.outcome (record { angle = angle; rate = rate }))) result
        turns.old turns.new choice.old choice.new }
{
    export_tools::region::slew_outcome(angle, rate, turns, choice)
}

#[unsafe(no_mangle)]
pub extern "C" fn slew_reply(
    angle: i64,
    rate: i64,
    left: usize,
    choice: i64,
    out: &mut i64,
) -> usize
    ensures { Answered (Answers.of_reply (Room.reply (record { angle = angle; rate = rate }) left choice)) result out.old out.new }
{
    export_tools::region::slew_reply(angle, rate, left, choice, out)
}

#[unsafe(no_mangle)]
pub extern "C" fn slew_region(out: &mut [u8; 2193])
    ensures { out.new ≡ Room.region }
{
    export_tools::region::slew_region(out);
}
