// The C interface of the series' counts, for the comparison: how the series of an argument end, the sum's size and how many terms were formed. Where none is
// formed the answer is false and what was lent is untouched. export_counts_c gives the functions their C symbols and makes the archive, which is one of
// its own: beside a second caller the compiler would no longer put the series into `sin`, `cos` and `sin_cos`.
#![tactic(auto)]

ghost use Rattle.std.specs.Prelude.{◌≡◌};
ghost use Rattle.angles.specs.Ended.{sine_series, cosine_series, both_series, arc_series};
ghost use Rattle.export_counts.specs.Outcomes as Outcomes;

// Two whole numbers in their order.
fn two_words(a: u64, b: u64) -> [u64; 2]
    ensures { result ≡ Outcomes.two_words a b }
{
    [a, b]
}

// Four of them.
fn four_words(a: u64, b: u64, c: u64, d: u64) -> [u64; 4]
    ensures { result ≡ Outcomes.four_words a b c d }
{
    [a, b, c, d]
}

// Whether there is a series, whose sum and count are then put into `answer`.
fn put_series(s: Option<(u64, u64)>, answer: &mut [u64; 2]) -> bool
    ensures value { result ≡ Outcomes.is_series s }
    ensures answer_after { answer.new ≡ Outcomes.series_or s answer.old }
{
    match s {
        Some((sum, terms)) => {
            *answer = two_words(sum, terms);
            true
        }
        None => false,
    }
}

pub fn slew_sine_series(x: f64, answer: &mut [u64; 2]) -> bool
    ensures value { result ≡ Outcomes.is_series (sine_series x) }
    ensures answer_after { answer.new ≡ Outcomes.series_or (sine_series x) answer.old }
{
    put_series(angles::counted::sine_series(x), answer)
}

pub fn slew_cosine_series(x: f64, answer: &mut [u64; 2]) -> bool
    ensures value { result ≡ Outcomes.is_series (cosine_series x) }
    ensures answer_after { answer.new ≡ Outcomes.series_or (cosine_series x) answer.old }
{
    put_series(angles::counted::cosine_series(x), answer)
}

pub fn slew_arc_series(w: f64, answer: &mut [u64; 2]) -> bool
    ensures value { result ≡ Outcomes.is_series (arc_series w) }
    ensures answer_after { answer.new ≡ Outcomes.series_or (arc_series w) answer.old }
{
    put_series(angles::counted::arc_series(w), answer)
}

// Whether there are both, whose sums and counts, the sine's first, are then put into `answer`.
fn put_pair(p: Option<(u64, u64, u64, u64)>, answer: &mut [u64; 4]) -> bool
    ensures value { result ≡ Outcomes.are_pair p }
    ensures answer_after { answer.new ≡ Outcomes.pair_or p answer.old }
{
    match p {
        Some((sine, sine_terms, cosine, cosine_terms)) => {
            *answer = four_words(sine, sine_terms, cosine, cosine_terms);
            true
        }
        None => false,
    }
}

pub fn slew_both_series(x: f64, answer: &mut [u64; 4]) -> bool
    ensures value { result ≡ Outcomes.are_pair (both_series x) }
    ensures answer_after { answer.new ≡ Outcomes.pair_or (both_series x) answer.old }
{
    put_pair(angles::counted::both_series(x), answer)
}
