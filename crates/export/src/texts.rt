// plan_text, sample_text: plans of a problem's text, answered as the text that the program slew prints, and their dense samples.
//
// For a plan an `out` of less than 16,384 bytes gets nothing, the answer is 0, and no forward run begins. The workspace is untouched where no forward run
// began, and all +0 otherwise.
ghost use Rattle.std.specs.Prelude.{length};
ghost use Rattle.plan_text.specs.PlanTexts as PlanTexts;
ghost use Rattle.sample_text.specs.SampleTexts as SampleTexts;
ghost use Rattle.export.specs.Entries.{TextTold};

use plan_text::{plan_text, plan_text_from};
use sample_text::sample_text;

// With our own seed. Answers how many bytes of `out` were written.
pub fn slew_plan(text: &[u8], workspace: &mut [f64], out: &mut [u8]) -> usize
    ensures { TextTold (PlanTexts.planned text.now (length workspace.old)) result
        out.old out.new workspace.old workspace.new }
{
    let told = plan_text(text, workspace, out);
    told.bytes
}

// With a caller's seed: a duration, 17 rates and 17 torques, three numbers a node, 103 numbers in all. Answers how many bytes of `out` were written.
pub fn slew_plan_from(text: &[u8], seed: &[f64], workspace: &mut [f64], out: &mut [u8]) -> usize
    ensures { TextTold (PlanTexts.planned_from text.now seed.now (length workspace.old)) result
        out.old out.new workspace.old workspace.new }
{
    let told = plan_text_from(text, seed, workspace, out);
    told.bytes
}

// One dense sample, number `index`, of the path that our own seed finds. Answers 0 and puts the sample's 14 numbers into `out`: time, attitude, rate, torque,
// body momentum; or answers a refusal's number and puts its place and runs there. Less than 14 numbers lent get nothing: the answer is 99, and no run begins.
pub fn slew_sample(
    text: &[u8],
    workspace: &mut [f64],
    requested: usize,
    alpha: f64,
    index: usize,
    out: &mut [f64],
) -> u64
    ensures { SampleTexts.Gives (SampleTexts.plan_course text.now) requested alpha index
        workspace.old out.old result workspace.new out.new }
{
    sample_text(text, workspace, requested, alpha, index, out)
}
