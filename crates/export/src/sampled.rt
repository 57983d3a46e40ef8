// samples: dense samples of a path, one at a time. A path is its duration and the rows of its 17 nodes, as `slew_reconstruct` gives them; a sample its time,
// attitude, rate, torque and body momentum. Beside a refusal the sample is zeros.
ghost use Rattle.geom.specs.Vec as Vec;
ghost use Rattle.samples.specs.Answers as Answers;
ghost use Rattle.samples.specs.Counts as Counts;
ghost use Rattle.samples.specs.Samples as Samples;
ghost use Rattle.export_leaves.specs.Outcomes.{Answered};
ghost use Rattle.export.specs.Entries.{SampleTold};

use sample_text::numbers_of;

// A refusal's number, or 0, and then the count is put into `out`.
fn put_count(n: Option<usize>, out: &mut usize) -> usize
    ensures { Answered (Answers.of_count n) result out.old out.new }
{
    match n {
        Some(k) => {
            *out = k;
            0
        }
        None => 20,
    }
}

// How many samples a path of this duration has.
pub fn slew_sample_count(duration: f64, requested: usize, alpha: f64, out: &mut usize) -> usize
    ensures { Answered (Answers.of_count (Counts.sample_count duration requested alpha)) result out.old out.new }
{
    put_count(samples::sample_count(duration, requested, alpha), out)
}

// Sample number index of a path.
pub fn slew_sample_path(
    j: &[f64; 9],
    tolerance: f64,
    duration: f64,
    nodes: &[[f64; 22]; 17],
    requested: usize,
    alpha: f64,
    index: usize,
    out: &mut [f64; 14],
    place: &mut usize,
) -> usize
    ensures { SampleTold (Samples.sample (Vec.tensor j.now) tolerance duration nodes.now requested alpha index)
        result place.new out.new }
{
    let inertia = geom::tensor(*j);
    match samples::sample(inertia, tolerance, duration, nodes, requested, alpha, index) {
        Ok(s) => {
            *out = numbers_of(s);
            *place = 0;
            0
        }
        Err(why) => {
            *out = [0.0; 14];
            *place = why.place;
            why.number
        }
    }
}
