// What a refusal means, in words: one table of sentences, and the search of a refusal's line in it.
#![tactic(auto)]

ghost use Rattle.std.specs.Prelude.{◌≡◌, ◌+◌, ◌-◌, ◌≤◌, ◌<◌, ◌^◌, length, get_or, drop};
ghost use Rattle.text_writer.specs.Puts.{Puts};
ghost use Rattle.refusal_text.specs.Sentences as Sentences;
ghost use Rattle.refusal_text.specs.Sentences.{Tells};

use common::Refusal;
use text::hex::byte;
use text_writer::put::{put_all, put_byte, put_digits};

// The table that `Sentences.table` is, byte for byte; what its columns say stands there.
const TABLE: [u8; 4578] = *b"\
00 00 00 00 No refusal has this number.\n\
01 00 00 00 There are more than 8 wheels: leave some out.\n\
01 00 01 00 There are more than 12 thrusters: leave some out.\n\
02 00 00 00 Wheel #: its torque, its momentum and its power must be finite and above 0.\n\
02 00 08 08 Thruster #: its torque must be finite and above 0.\n\
02 00 20 00 The pyramid: its skew must lie between 0 and 1.6, its momentum, rate and eps must be finite and above 0.\n\
03 00 00 00 Wheel #: its axis must be finite and must not be 0.\n\
03 00 08 08 Thruster #: its axis must be finite and must not be 0.\n\
03 00 20 00 An axis must be finite and must not be 0.\n\
04 00 00 00 A torque or slew limit must be finite and above 0, a weight finite and not below 0, a tolerance between 0 and 1.\n\
05 00 00 00 The start attitude q0 is no unit quaternion within the norm tolerance: normalize it.\n\
05 00 01 00 The end attitude qf is no unit quaternion within the norm tolerance: normalize it.\n\
05 00 02 00 An attitude in a forward run is no unit quaternion within the norm tolerance: widen it.\n\
05 03 00 00 Sample #: its attitude is no unit quaternion within the norm tolerance: widen it, or look at the nodes.\n\
06 00 00 00 The inertia must be symmetric and positive definite: look at its nine numbers.\n\
06 00 01 00 The first three axes, or the pyramid's gyros, do not span the three directions: turn an axis, or change the skew.\n\
07 00 00 00 The two attitudes do not differ: there is nothing to slew.\n\
07 00 01 00 The slew is half a turn, whose axis the search does not choose: plan the slew about one axis (eigenaxis).\n\
07 00 02 00 The torque limits or the slew limit are too small or too large for a profile: look at their units.\n\
08 00 00 00 These actuators are not served: take none, three or more wheels, three or more thrusters, or one pyramid.\n\
09 00 00 00 The workspace is too short for these controls: the programs lend 8,000 numbers, for 4 controls a row or 3 with a pointing weight. Declare fewer, or call the library and lend more.\n\
10 00 00 00 The seed must have 17 nodes and a finite duration above 0: look at the seed, or at torque limits near 0.\n\
11 00 00 00 Step # of a run turns through an angle out of range: plan the slew about one axis (eigenaxis), or look at the units of the limits.\n\
11 01 00 00 The slew is half a turn but for rounding, and the tie tolerance lets it pass: plan the slew about one axis (eigenaxis).\n\
11 03 00 00 Sample # turns through an angle out of range: look at the nodes and the duration.\n\
12 00 00 00 Step # of a run meets a singular pyramid: plan the slew about one axis (eigenaxis).\n\
13 00 00 00 Step # of a run takes a wheel over its power: plan the slew about one axis (eigenaxis).\n\
14 00 00 00 The search did not reach qf: plan the slew about one axis (eigenaxis), or try all weights at 0.\n\
15 00 00 00 The search did not come to rest at its end: plan the slew about one axis (eigenaxis), or try all weights at 0.\n\
16 00 00 00 The path that was found has too large a defect, which is rounding alone: look at the units of inertia and torques.\n\
17 00 00 00 Node # of the path that was found is over a torque limit: plan the slew about one axis (eigenaxis).\n\
18 00 00 00 Node # of the path that was found is over the slew limit: plan the slew about one axis (eigenaxis), or leave that limit out.\n\
19 00 00 00 Node # of the path that was found is over a wheel's momentum: begin with slower wheels, or raise their momentum limits.\n\
20 00 00 00 There would be more than 100,000 samples: ask for fewer, or plan a shorter slew.\n\
20 00 01 00 There is no sample of this index: it must be below the count.\n\
21 00 00 00 The text is too long: a problem's and a table's have at most 4,096 bytes, a mosaic's 16,384: shorten it.\n\
21 00 01 00 Line # of the text is wrong or missing: compare it with its form.\n\
22 00 00 00 Wheel #: its start momentum must be finite and at most its limit in size, one for each wheel.\n\
23 00 00 00 A mosaic has 2 to 64 attitudes: give more of them, or cut it at a tile and plan both parts.\n\
24 00 00 00 Sample #: a part does not fit the drive board's 32 bits: rates, torques and momenta must be below 2,048 in size.\n\
25 00 00 00 There is no tile, or there are more than 10, or a time is outside 1 to 10,000,000 milliseconds.\n\
26 00 00 00 Wheel #: the momenta on record are not those that the preview began from, or it was refused: preview again.\n\
27 00 00 00 Outside the room: the angle goes from -64 to 64, the rate from -8 to 8; of a reply the choice from -2 to 2, the turns left from 1 to 64.\n\
28 00 00 00 The column has more than 4,096 numbers, the bytes are not 8 for each, or the output is too short.\n";

// A decimal digit's number; 0 of what is before the digits, and past the end.
fn digit(t: &[u8], k: usize) -> usize
    ensures { (result ≡ get_or t.now k 0 - 48) × (result < 256) }
{
    let b = byte(t, k) as usize;
    if b < 48 {
        return 0;
    }
    b - 48
}

// The number of two digits.
fn number_at(t: &[u8], k: usize) -> usize
    requires { k < 2 ^ 32 }
    ensures { result ≡ Sentences.number_at t.now k }
{
    digit(t, k) * 10 + digit(t, k + 1)
}

// Whether a line begins at k.
#[tactic(auto, unfolding(crate::specs::Sentences::begins))]
fn begins(t: &[u8], k: usize) -> bool
    ensures { result ≡ Sentences.begins t.now k }
{
    k == 0 || byte(t, k - 1) == b'\n'
}

// When a refusal was met.
fn met(runs: usize, sampled: bool) -> usize
    ensures { result ≡ Sentences.met runs sampled }
{
    if sampled {
        return 3;
    }
    if runs == 0 { 1 } else { 2 }
}

// Whether the line at k is for a refusal.
#[tactic(auto, unfolding(crate::specs::Sentences::serves))]
fn serves(t: &[u8], n: usize, place: usize, when: usize, k: usize) -> bool
    requires { k < 2 ^ 31 }
    ensures { result ≡ Sentences.serves t.now n place when k }
{
    if number_at(t, k) != n || place < number_at(t, k + 6) {
        return false;
    }
    let asked = number_at(t, k + 3);
    asked == 0 || asked == when
}

// The line at k where it is for a refusal, else the one that was found before it.
#[tactic(auto, unfolding(crate::specs::Sentences::later))]
fn later(t: &[u8], n: usize, place: usize, when: usize, k: usize, found: usize) -> usize
    requires { k < 2 ^ 31 }
    ensures { result ≡ Sentences.later t.now n place when k found }
{
    if !begins(t, k) {
        return found;
    }
    if serves(t, n, place, when, k) {
        k
    } else {
        found
    }
}

// Where the last line for a refusal begins.
fn line_for(t: &[u8], n: usize, place: usize, when: usize) -> usize
    requires { length t.now < 2 ^ 16 }
    ensures { (result ≡ Sentences.line_for t.now n place when) × (result ≤ length t.now) }
{
    let mut found: usize = 0;
    for k in 0..t.len() {
        found = later(t, n, place, when, k, found);
    }
    found
}

// A byte of a sentence, or the count in the place of `#`.
fn put_marked(out: &mut [u8], at: usize, count: usize, b: u8) -> usize
    requires { at < 2 ^ 31 }
    ensures { Puts out.old at (Sentences.marked count b) 20 out.new result }
{
    if b == b'#' {
        return put_digits(out, at, 20, count);
    }
    put_byte(out, at, b)
}

// The rest of a line from `from` on, the count in it.
fn put_line(out: &mut [u8], t: &[u8], from: usize, count: usize) -> usize
    requires { length t.now < 2 ^ 16 }
    ensures { Tells out.old (Sentences.told count (drop from t.now)) out.new result }
{
    let mut at: usize = 0;
    for k in from..t.len() {
        let b = t[k];
        if b == b'\n' {
            return put_byte(out, at, b);
        }
        at = put_marked(out, at, count, b);
    }
    at
}

// The sentence for a refusal in a table.
#[tactic(auto, unfolding(crate::specs::Sentences::sentence))]
fn put_sentence(out: &mut [u8], t: &[u8], n: usize, place: usize, when: usize) -> usize
    requires { length t.now < 2 ^ 16 }
    ensures { Tells out.old (Sentences.sentence_for t.now n place when) out.new result }
{
    let k = line_for(t, n, place, when);
    let least = number_at(t, k + 9);
    put_line(out, t, k + 12, place.saturating_sub(least))
}

// What a refusal means: what was wrong, with which item, and what to change. `runs` are the forward runs begun; `sampled` is whether a dense sample was refused
// and not the plan.
pub fn explain(number: usize, place: usize, runs: usize, sampled: bool, out: &mut [u8]) -> usize
    ensures { Puts out.old 0 (Sentences.explain number place runs sampled) 212 out.new result }
{
    put_sentence(out, &TABLE, number, place, met(runs, sampled))
}

// What a plan's refusal means; of a path nothing.
pub fn explain_plan(fate: Result<(), Refusal>, runs: usize, out: &mut [u8]) -> usize
    ensures { Puts out.old 0 (Sentences.explain_plan fate runs) 212 out.new result }
{
    match fate {
        Err(refusal) => explain(refusal.number, refusal.place, runs, false, out),
        Ok(()) => 0,
    }
}

// The whole table, a line for each sentence, for whoever tells them in another language.
pub fn write_table(out: &mut [u8]) -> usize
    ensures { Puts out.old 0 Sentences.table 8192 out.new result }
{
    put_all(out, 0, &TABLE)
}
