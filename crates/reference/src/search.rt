// The shortest duration that doubling and bisection find on a coarse grid, then verified at every step and lengthened a little where that fails.
ghost use Rattle.std.specs.Prelude.{◌≡◌, ◌+◌, ◌≤◌};
ghost use Rattle.common.specs.Iter.{iter};
ghost use Rattle.reference.specs.Prepare as Prepare;
ghost use Rattle.reference_checks.specs.Promises as Promises;
ghost use Rattle.reference.specs.Search as Search;

use crate::prepare::with_times;
use common::Refusal;
use reference_checks::verify;
use reference_motion::Reference;

// The state of a search: whether a duration was verified, the longest one below it that was refused, the next one to try, the best one so far, how the last trial ended,
// and how many trials and samples were evaluated. `best` is no Option: the search at all steps begins with none verified and answers it beside a refusal too.
#[derive(Clone, Copy)]
pub struct Trials {
    pub found: bool,
    pub low: f64,
    pub next: f64,
    pub best: f64,
    pub fate: Result<(), Refusal>,
    pub count: usize,
    pub samples: usize,
}

// What a search answers: the duration, or the last trial's refusal; and how many trials and samples were evaluated. No Result: `slew_plan_reference_numbers` writes the duration and
// the counts beside a refusal too.
#[derive(Clone, Copy)]
pub struct SearchResult {
    pub fate: Result<(), Refusal>,
    pub duration: f64,
    pub trials: usize,
    pub samples: usize,
}

// The trial of a duration t was refused, after so many samples.
fn record_refusal(s: Trials, t: f64, next: f64, why: Refusal, samples: usize) -> Trials
    requires { Search.Room s × (samples ≤ 100002) }
    ensures { result ≡ Search.record_refusal s t next why samples }
{
    Trials {
        low: t,
        next,
        fate: Err(why),
        count: s.count + 1,
        samples: s.samples + samples,
        ..s
    }
}

// The trial of a duration t was verified, after so many samples.
fn record_pass(s: Trials, t: f64, samples: usize) -> Trials
    requires { Search.Room s × (samples ≤ 100002) }
    ensures { result ≡ Search.record_pass s t samples }
{
    Trials {
        found: true,
        best: t,
        fate: Ok(()),
        count: s.count + 1,
        samples: s.samples + samples,
        ..s
    }
}

// One trial: the duration t at so many steps.
fn trial(r: Reference, steps: usize, s: Trials, t: f64, next: f64) -> Trials
    requires { (r.count ≤ 12) × ((steps ≤ 100000) × Search.Room s) }
    ensures { result ≡ Search.trial r steps s t next }
{
    let verdict = verify(with_times(r, t, steps));
    match verdict.fate {
        Ok(()) => record_pass(s, t, verdict.samples),
        Err(why) => record_refusal(s, t, next, why, verdict.samples),
    }
}

// A longer duration, by a factor, until one is verified.
fn lengthen(r: Reference, steps: usize, s: Trials, factor: f64) -> Trials
    requires { (r.count ≤ 12) × ((steps ≤ 100000) × Search.Room s) }
    ensures { result ≡ Search.lengthen r steps factor s }
{
    if s.found {
        return s;
    }
    trial(r, steps, s, s.next, factor * s.next)
}

// Halfway between the longest duration refused and the best one.
fn bisect(r: Reference, steps: usize, s: Trials) -> Trials
    requires { (r.count ≤ 12) × ((steps ≤ 100000) × Search.Room s) }
    ensures { result ≡ Search.bisect r steps s }
{
    if !s.found {
        return s;
    }
    trial(r, steps, s, 0.5 * (s.low + s.best), s.next)
}

// At most n longer durations.
fn lengthen_repeatedly(r: Reference, steps: usize, first: Trials, factor: f64, n: usize) -> Trials
    requires { (r.count ≤ 12) × ((steps ≤ 100000) × Search.RoomFor first n) }
    ensures { (result ≡ iter (Search.lengthen_turn r steps factor) first n) × Search.Grown first result n }
{
    let mut s = first;
    for _ in 0..n {
        s = lengthen(r, steps, s, factor);
    }
    s
}

// At most n bisections.
fn bisect_repeatedly(r: Reference, steps: usize, first: Trials, n: usize) -> Trials
    requires { (r.count ≤ 12) × ((steps ≤ 100000) × Search.RoomFor first n) }
    ensures { (result ≡ iter (Search.bisect_turn r steps) first n) × Search.Grown first result n }
{
    let mut s = first;
    for _ in 0..n {
        s = bisect(r, steps, s);
    }
    s
}

// The search's start.
fn initial_trials() -> Trials
    ensures { result ≡ Search.initial_trials }
{
    Trials {
        found: false,
        low: 0.0,
        next: 0.0095367431640625,
        best: 0.0,
        fate: Err(Refusal {
            number: 10,
            place: 0,
        }),
        count: 0,
        samples: 0,
    }
}

// The search at all steps begins with the duration that the coarse grid found.
fn fine_trials(s: Trials) -> Trials
    ensures { result ≡ Search.fine_trials s }
{
    Trials {
        found: false,
        next: s.best,
        fate: Err(Refusal {
            number: 10,
            place: 0,
        }),
        ..s
    }
}

// The search's result: the best duration, or the last trial's refusal.
fn result_of(s: Trials) -> SearchResult
    ensures { result ≡ Search.result_of s }
{
    SearchResult {
        fate: s.fate,
        duration: s.best,
        trials: s.count,
        samples: s.samples,
    }
}

// The duration verified at every step, from the one that the coarse grid found.
fn finish(r: Reference, s: Trials) -> SearchResult
    requires { (r.count ≤ 12) × ((r.steps ≤ 100000) × ((s.count ≤ 33) × (s.samples ≤ 3300066))) }
    ensures { (result ≡ Search.finish r s) × (result.trials ≤ 65) }
{
    if !s.found {
        return result_of(s);
    }
    result_of(lengthen_repeatedly(r, r.steps, fine_trials(s), 1.015625, 32))
}

// The shortest duration that 21 doublings and 12 bisections at `coarse` steps find, lengthened by a 64th at most 31 times until every step passes.
pub fn shortest(r: Reference, coarse: usize) -> SearchResult
    requires { (r.count ≤ 12) × ((r.steps ≤ 100000) × (coarse ≤ 100000)) }
    ensures { Search.Shortest r coarse result }
{
    let doubled = lengthen_repeatedly(r, coarse, initial_trials(), 2.0, 21);
    let bisected = bisect_repeatedly(r, coarse, doubled, 12);
    finish(r, bisected)
}
