// Sine, cosine, arc cosine (`export_leaves::turns`).
ghost use Rattle.std.specs.Prelude.{◌≡◌};
ghost use Rattle.angles.specs.Angles.{sin_of, cos_of};
ghost use Rattle.angles.specs.Arcs.{acos_of};
ghost use Rattle.angles.specs.Both.{both_of};
ghost use Rattle.angles.specs.Answers.{angle_answer, both_answer};
ghost use Rattle.export_leaves.specs.Outcomes as Outcomes;

#[unsafe(no_mangle)]
pub extern "C" fn slew_sin(x: f64, answer: &mut f64) -> bool
    ensures value { result ≡ Outcomes.is_given (angle_answer (sin_of x)) }
    ensures answer_after { answer.new ≡ Outcomes.value_or (angle_answer (sin_of x)) answer.old }
{
    export_leaves::turns::slew_sin(x, answer)
}

#[unsafe(no_mangle)]
pub extern "C" fn slew_cos(x: f64, answer: &mut f64) -> bool
    ensures value { result ≡ Outcomes.is_given (angle_answer (cos_of x)) }
    ensures answer_after { answer.new ≡ Outcomes.value_or (angle_answer (cos_of x)) answer.old }
{
    export_leaves::turns::slew_cos(x, answer)
}

#[unsafe(no_mangle)]
pub extern "C" fn slew_acos(x: f64, answer: &mut f64) -> bool
    ensures value { result ≡ Outcomes.is_given (angle_answer (acos_of x)) }
    ensures answer_after { answer.new ≡ Outcomes.value_or (angle_answer (acos_of x)) answer.old }
{
    export_leaves::turns::slew_acos(x, answer)
}

#[unsafe(no_mangle)]
pub extern "C" fn slew_sin_cos(x: f64, answer: &mut [f64; 2]) -> bool
    ensures value { result ≡ Outcomes.is_given (Outcomes.of_pair (both_answer (both_of x))) }
    ensures answer_after { answer.new ≡ Outcomes.value_or (Outcomes.of_pair (both_answer (both_of x))) answer.old }
{
    export_leaves::turns::slew_sin_cos(x, answer)
}
