// The series' counts, as C calls them: each function calls that of export_counts with the same name, and promises the same.
//
// `rt lib` in this folder writes out/libexport_counts_c.a, which C callers have as libexport_counts.a. What a call is lent and told stands at the
// functions of export_counts.
#![tactic(auto)]

ghost use Rattle.std.specs.Prelude.{◌≡◌};
ghost use Rattle.angles.specs.Ended.{sine_series, cosine_series, both_series, arc_series};
ghost use Rattle.export_counts.specs.Outcomes as Outcomes;

#[unsafe(no_mangle)]
pub extern "C" fn slew_sine_series(x: f64, answer: &mut [u64; 2]) -> bool
    ensures value { result ≡ Outcomes.is_series (sine_series x) }
    ensures answer_after { answer.new ≡ Outcomes.series_or (sine_series x) answer.old }
{
    export_counts::slew_sine_series(x, answer)
}

#[unsafe(no_mangle)]
pub extern "C" fn slew_cosine_series(x: f64, answer: &mut [u64; 2]) -> bool
    ensures value { result ≡ Outcomes.is_series (cosine_series x) }
    ensures answer_after { answer.new ≡ Outcomes.series_or (cosine_series x) answer.old }
{
    export_counts::slew_cosine_series(x, answer)
}

#[unsafe(no_mangle)]
pub extern "C" fn slew_arc_series(w: f64, answer: &mut [u64; 2]) -> bool
    ensures value { result ≡ Outcomes.is_series (arc_series w) }
    ensures answer_after { answer.new ≡ Outcomes.series_or (arc_series w) answer.old }
{
    export_counts::slew_arc_series(w, answer)
}

#[unsafe(no_mangle)]
pub extern "C" fn slew_both_series(x: f64, answer: &mut [u64; 4]) -> bool
    ensures value { result ≡ Outcomes.are_pair (both_series x) }
    ensures answer_after { answer.new ≡ Outcomes.pair_or (both_series x) answer.old }
{
    export_counts::slew_both_series(x, answer)
}
