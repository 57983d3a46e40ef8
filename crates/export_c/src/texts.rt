// Plans and dense samples of a problem's text (`export::texts`).
ghost use Rattle.std.specs.Prelude.{length};
ghost use Rattle.plan_text.specs.PlanTexts as PlanTexts;
ghost use Rattle.sample_text.specs.SampleTexts as SampleTexts;
ghost use Rattle.export.specs.Entries.{TextTold};

#[unsafe(no_mangle)]
pub extern "C" fn slew_plan(text: &[u8], workspace: &mut [f64], out: &mut [u8]) -> usize
    ensures { TextTold (PlanTexts.planned text.now (length workspace.old)) result
        out.old out.new workspace.old workspace.new }
{
    export::texts::slew_plan(text, workspace, out)
}

#[unsafe(no_mangle)]
pub extern "C" fn slew_plan_from(
    text: &[u8],
    seed: &[f64],
    workspace: &mut [f64],
    out: &mut [u8],
) -> usize
    ensures { TextTold (PlanTexts.planned_from text.now seed.now (length workspace.old)) result
        out.old out.new workspace.old workspace.new }
{
    export::texts::slew_plan_from(text, seed, workspace, out)
}

#[unsafe(no_mangle)]
pub extern "C" fn slew_sample(
    text: &[u8],
    workspace: &mut [f64],
    requested: usize,
    alpha: f64,
    index: usize,
    out: &mut [f64],
) -> u64
    ensures { SampleTexts.Gives (SampleTexts.plan_course text.now) requested alpha index
        workspace.old out.old result workspace.new out.new }
{
    export::texts::slew_sample(text, workspace, requested, alpha, index, out)
}
