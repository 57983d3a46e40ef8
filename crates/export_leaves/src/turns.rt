// angles: sine, cosine, arc cosine. Where the argument is outside the range (refusal 11) the answer is false and what was lent is untouched.
ghost use Rattle.std.specs.Prelude.{◌≡◌};
ghost use Rattle.angles.specs.Angles.{sin_of, cos_of};
ghost use Rattle.angles.specs.Arcs.{acos_of};
ghost use Rattle.angles.specs.Both.{both_of};
ghost use Rattle.angles.specs.Answers.{angle_answer, both_answer};
ghost use Rattle.export_leaves.specs.Outcomes as Outcomes;
ghost use Rattle.export_leaves.specs.Outcomes.{Answered};

use super::pack::two;

// A refusal's number, or 0, and then the angle is put into `answer`.
fn put_angle(a: Option<f64>, answer: &mut f64) -> usize
    ensures { Answered (angle_answer a) result answer.old answer.new }
{
    let Some(v) = a else {
        return 11;
    };
    *answer = v;
    0
}

pub fn slew_sin(x: f64, answer: &mut f64) -> bool
    ensures value { result ≡ Outcomes.is_given (angle_answer (sin_of x)) }
    ensures answer_after { answer.new ≡ Outcomes.value_or (angle_answer (sin_of x)) answer.old }
{
    put_angle(angles::sin(x), answer) == 0
}

pub fn slew_cos(x: f64, answer: &mut f64) -> bool
    ensures value { result ≡ Outcomes.is_given (angle_answer (cos_of x)) }
    ensures answer_after { answer.new ≡ Outcomes.value_or (angle_answer (cos_of x)) answer.old }
{
    put_angle(angles::cos(x), answer) == 0
}

pub fn slew_acos(x: f64, answer: &mut f64) -> bool
    ensures value { result ≡ Outcomes.is_given (angle_answer (acos_of x)) }
    ensures answer_after { answer.new ≡ Outcomes.value_or (angle_answer (acos_of x)) answer.old }
{
    put_angle(angles::acos(x), answer) == 0
}

// A refusal's number, or 0, and then the sine and the cosine are put into `answer`.
fn put_both(b: Option<(f64, f64)>, answer: &mut [f64; 2]) -> usize
    ensures { Answered (Outcomes.of_pair (both_answer b)) result answer.old answer.new }
{
    match b {
        Some((s, c)) => {
            *answer = two(s, c);
            0
        }
        None => 11,
    }
}

pub fn slew_sin_cos(x: f64, answer: &mut [f64; 2]) -> bool
    ensures value { result ≡ Outcomes.is_given (Outcomes.of_pair (both_answer (both_of x))) }
    ensures answer_after { answer.new ≡ Outcomes.value_or (Outcomes.of_pair (both_answer (both_of x))) answer.old }
{
    put_both(angles::sin_cos(x), answer) == 0
}
