// What the program slew_region prints: the outcome of a start, the draught's reply, the whole region; and what a refusal means.
#![tactic(auto)]

ghost use Rattle.std.specs.Prelude.{◌≡◌, true, false, ◌*◌, ◌≤◌, ◌<◌, ◌^◌};
ghost use Rattle.reach_avoid.specs.Room as Room;
ghost use Rattle.text_writer.specs.Puts.{Puts};
ghost use Rattle.text_writer.specs.Texts.{times, refused, whole};
ghost use Rattle.refusal_text.specs.Sentences as Sentences;
ghost use Rattle.region_text.specs.RegionTexts as RegionTexts;
ghost use Rattle.region_text.specs.RegionTexts.{Prints};

use reach_avoid::{OutOfRange, StartOutcome, outcome, region, reply};
use refusal_text::explain;
use text_writer::forms::put_counted;
use text_writer::put::{put_all, put_byte, put_digits, put_less};
use text_writer::write_refused;

pub mod words;

// How many bytes go to standard output, and how many to standard error.
#[derive(Clone, Copy)]
pub struct Printed {
    pub bytes: usize,
    pub said: usize,
}

// A choice in decimal.
fn put_choice(b: &mut [u8], at: usize, u: i64) -> usize
    requires { (at < 2 ^ 29) × (Room.within 2 u ≡ true) }
    ensures { Puts b.old at (whole u) 21 b.new result }
{
    put_less(b, at, (u + 2) as usize, 2)
}

// A start that is forced home.
fn put_forced(out: &mut [u8], n: usize, u: i64) -> usize
    requires { Room.within 2 u ≡ true }
    ensures { Puts out.old 0 (RegionTexts.forced n u) 100 out.new result }
{
    let i = put_counted(out, 0, b"(start\n (turns ", n);
    let j = put_all(out, i, b"\n (choice ");
    let k = put_choice(out, j, u);
    put_all(out, k, b"))\n")
}

// A reply.
fn put_with(out: &mut [u8], d: i64) -> usize
    requires { Room.within 2 d ≡ true }
    ensures { Puts out.old 0 (RegionTexts.adds d) 100 out.new result }
{
    let i = put_all(out, 0, b"(reply\n (adds ");
    let j = put_choice(out, i, d);
    put_all(out, j, b"))\n")
}

// Refusal 27, and what it means.
fn refuse(out: &mut [u8], said: &mut [u8]) -> Printed
    ensures { Prints (refused 27 0 0) (Sentences.explain 27 0 0 false) out.old said.old result out.new said.new }
{
    let bytes = write_refused(out, 27, 0, 0);
    let said = explain(27, 0, 0, false, said);
    Printed { bytes, said }
}

// What is told of a start.
pub fn write_start(angle: i64, rate: i64, out: &mut [u8], said: &mut [u8]) -> Printed
    ensures { RegionTexts.PrintsStart angle rate out.old said.old result out.new said.new }
{
    let bytes = match outcome(angle, rate) {
        Ok(StartOutcome::Home) => put_all(out, 0, b"(start\n (home))\n"),
        Ok(StartOutcome::Forced(n, u)) => put_forced(out, n, u),
        Ok(StartOutcome::HeldOff) => put_all(out, 0, b"(start\n (held-off))\n"),
        Err(OutOfRange) => return refuse(out, said),
    };
    Printed { bytes, said: 0 }
}

// What the draught replies.
pub fn write_reply(
    angle: i64,
    rate: i64,
    left: usize,
    choice: i64,
    out: &mut [u8],
    said: &mut [u8],
) -> Printed
    ensures { RegionTexts.PrintsReply angle rate left choice out.old said.old result out.new said.new }
{
    let bytes = match reply(angle, rate, left, choice) {
        Ok(Some(d)) => put_with(out, d),
        Ok(None) => put_all(out, 0, b"(reply\n (none))\n"),
        Err(OutOfRange) => return refuse(out, said),
    };
    Printed { bytes, said: 0 }
}

// A blank and the turns of one start.
fn put_turns(b: &mut [u8], at: usize, n: u8) -> usize
    requires { at < 2 ^ 30 }
    ensures { Puts b.old at (RegionTexts.turns n) 4 b.new result }
{
    let i = put_byte(b, at, b' ');
    put_digits(b, i, 3, n as usize)
}

// The turns of an angle's 17 starts.
fn put_rates(b: &mut [u8], at: usize, t: &[u8; 2193], x: usize) -> usize
    requires { (at < 2 ^ 29) × (x < 129) }
    ensures { Puts b.old at (times (RegionTexts.turns_at_value t.now x) 17) 68 b.new result }
{
    let mut i = at;
    for y in 0..17 {
        i = put_turns(b, i, t[x * 17 + y]);
    }
    i
}

// The line of an angle.
fn put_angle(b: &mut [u8], at: usize, t: &[u8; 2193], x: usize) -> usize
    requires { (at < 2 ^ 28) × (x < 129) }
    ensures { Puts b.old at (RegionTexts.angle_line t.now x) 99 b.new result }
{
    let i = put_all(b, at, b"\n (angle ");
    let j = put_less(b, i, x, 64);
    let k = put_rates(b, j, t, x);
    put_all(b, k, b")")
}

// The lines of all angles.
fn put_angles(b: &mut [u8], at: usize, t: &[u8; 2193]) -> usize
    requires { at < 2 ^ 27 }
    ensures { Puts b.old at (times (RegionTexts.angle_line t.now) 129) 12771 b.new result }
{
    let mut i = at;
    for x in 0..129 {
        i = put_angle(b, i, t, x);
    }
    i
}

// The whole region: a line an angle from -64 on, and in it the turns of each rate from -8 on.
pub fn write_region(out: &mut [u8]) -> usize
    ensures { Puts out.old 0 (RegionTexts.region_text Room.region) 12780 out.new result }
{
    let t = region();
    let i = put_all(out, 0, b"(region");
    let j = put_angles(out, i, &t);
    put_all(out, j, b")\n")
}
