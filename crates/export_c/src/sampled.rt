// Dense samples of a path, one at a time (`export::sampled`).
ghost use Rattle.geom.specs.Vec as Vec;
ghost use Rattle.samples.specs.Answers as Answers;
ghost use Rattle.samples.specs.Counts as Counts;
ghost use Rattle.samples.specs.Samples as Samples;
ghost use Rattle.export_leaves.specs.Outcomes.{Answered};
ghost use Rattle.export.specs.Entries.{SampleTold};

#[unsafe(no_mangle)]
pub extern "C" fn slew_sample_count(
    duration: f64,
    requested: usize,
    alpha: f64,
    out: &mut usize,
) -> usize
    ensures { Answered (Answers.of_count (Counts.sample_count duration requested alpha)) result out.old out.new }
{
    export::sampled::slew_sample_count(duration, requested, alpha, out)
}

#[unsafe(no_mangle)]
pub extern "C" fn slew_sample_path(
    j: &[f64; 9],
    tolerance: f64,
    duration: f64,
    nodes: &[[f64; 22]; 17],
    requested: usize,
    alpha: f64,
    index: usize,
    out: &mut [f64; 14],
    place: &mut usize,
) -> usize
    ensures { SampleTold (Samples.sample (Vec.tensor j.now) tolerance duration nodes.now requested alpha index)
        result place.new out.new }
{
    export::sampled::slew_sample_path(
        j, tolerance, duration, nodes, requested, alpha, index, out, place,
    )
}
