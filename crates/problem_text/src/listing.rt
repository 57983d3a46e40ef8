// The list of actuators in the program's text: wheels, then thrusters, then at most one pyramid, a line each.
ghost use Rattle.std.specs.Prelude.{◌≡◌, ◌<◌};
ghost use Rattle.problem_text.specs.Listing as Listings;
ghost use Rattle.text.specs.Forms.{loose};

use actuators::{Actuators, CmgPyramid, Thruster, Wheel, no_actuators};
use common::Refusal;
use text::lines::{Row, Words, is_at, line_at};
use text::places::put;

// The kinds of actuators, in the order in which the list has them.
#[derive(Clone, Copy, PartialEq, Eq)]
pub enum Kind {
    Wheel,
    Thruster,
    Pyramid,
}

// One actuator up to its bracket.
#[derive(Clone, Copy)]
pub struct Item {
    pub kind: Kind,
    pub row: Row,
}

// How far the list is read: whether a line of it follows, that line's number and position, the least place of a kind that may stand there, what was read.
#[derive(Clone, Copy)]
pub struct Listing {
    pub fate: Result<(), Refusal>,
    pub unclosed: bool,
    pub line: usize,
    pub at: usize,
    pub least: usize,
    pub actuators: Actuators,
}

// A kind's place in the list's order, from 1.
fn place_of(kind: Kind) -> usize
    ensures { result ≡ Listings.place_of kind }
{
    match kind {
        Kind::Wheel => 1,
        Kind::Thruster => 2,
        Kind::Pyramid => 3,
    }
}

// The least place of a kind that may follow one: there is at most one pyramid.
fn least_after(kind: Kind) -> usize
    ensures { result ≡ Listings.least_after kind }
{
    match kind {
        Kind::Wheel => 1,
        Kind::Thruster => 2,
        Kind::Pyramid => 4,
    }
}

// The actuator at a position.
fn item_at(s: &[u8], at: usize) -> Option<Item>
    ensures { result ≡ Listings.item_at loose s.now at }
{
    if let Some(row) = line_at(s, at, b"  (wheel", Words::Limited(5), b")") {
        return Some(Item {
            kind: Kind::Wheel,
            row,
        });
    }
    if let Some(row) = line_at(s, at, b"  (thruster", Words::Floats(4), b")") {
        return Some(Item {
            kind: Kind::Thruster,
            row,
        });
    }
    let row = line_at(s, at, b"  (cmg", Words::Floats(4), b")")?;
    Some(Item {
        kind: Kind::Pyramid,
        row,
    })
}

// One wheel more; past the eighth it is counted only.
#[tactic(auto, unfolding(crate::specs::Listing::with_wheel))]
fn with_wheel(a: Actuators, row: Row) -> Actuators
    requires { a.wheel_count < 8192 }
    ensures { result ≡ Listings.with_wheel a row }
{
    let v = row.v;
    let wheel = Wheel {
        axis: [v[0], v[1], v[2]],
        max_torque_nm: v[3],
        max_momentum_nms: v[4],
        max_power_w: row.limit,
    };
    Actuators {
        wheels: put(a.wheels, a.wheel_count, wheel),
        wheel_count: a.wheel_count + 1,
        ..a
    }
}

// One thruster more; past the twelfth it is counted only.
#[tactic(auto, unfolding(crate::specs::Listing::with_thruster))]
fn with_thruster(a: Actuators, row: Row) -> Actuators
    requires { a.thruster_count < 8192 }
    ensures { result ≡ Listings.with_thruster a row }
{
    let v = row.v;
    let thruster = Thruster {
        torque_axis: [v[0], v[1], v[2]],
        max_torque_nm: v[3],
    };
    Actuators {
        thrusters: put(a.thrusters, a.thruster_count, thruster),
        thruster_count: a.thruster_count + 1,
        ..a
    }
}

// The pyramid.
#[tactic(auto, unfolding(crate::specs::Listing::with_pyramid))]
fn with_pyramid(a: Actuators, row: Row) -> Actuators
    ensures { result ≡ Listings.with_pyramid a row }
{
    let v = row.v;
    let pyramid = CmgPyramid {
        skew_rad: v[0],
        wheel_momentum_nms: v[1],
        max_gimbal_rate_rad_s: v[2],
        singularity_eps: v[3],
    };
    Actuators {
        cmgs: Some(pyramid),
        ..a
    }
}

// One actuator more.
#[tactic(auto, unfolding(crate::specs::Listing::with_item))]
fn with_item(a: Actuators, item: Item) -> Actuators
    requires { (a.wheel_count < 8192) × (a.thruster_count < 8192) }
    ensures { result ≡ Listings.with_item a item }
{
    match item.kind {
        Kind::Wheel => with_wheel(a, item.row),
        Kind::Thruster => with_thruster(a, item.row),
        Kind::Pyramid => with_pyramid(a, item.row),
    }
}

// A line that is wrong or missing ends the list.
fn wrong_line(line: usize, at: usize, least: usize, actuators: Actuators) -> Listing
    ensures { result ≡ Listings.wrong_line line at least actuators }
{
    Listing {
        fate: Err(Refusal {
            number: 21,
            place: line,
        }),
        unclosed: false,
        line: line,
        at: at,
        least: least,
        actuators: actuators,
    }
}

// The brackets after the last actuator's, with which the text must end: what stands there is wrong at the next line.
#[tactic(auto, unfolding(crate::specs::Listing::end_at))]
fn end_at(s: &[u8], line: usize, at: usize, least: usize, actuators: Actuators) -> Listing
    requires { line < 8192 }
    ensures { result ≡ Listings.end_at s.now line at least actuators }
{
    if at < s.len() {
        return wrong_line(line + 1, at, least, actuators);
    }
    Listing {
        fate: Ok(()),
        unclosed: false,
        line: line + 1,
        at: at,
        least: least,
        actuators: actuators,
    }
}

// What follows an actuator's bracket, on its own line: a line feed, or the brackets that close the list and the problem.
#[tactic(auto, unfolding(crate::specs::Listing::close_at))]
fn close_at(s: &[u8], line: usize, at: usize, least: usize, actuators: Actuators) -> Listing
    requires { line < 8192 }
    ensures { result ≡ Listings.close_at s.now line at least actuators }
{
    if is_at(s, at, b"\n") {
        return Listing {
            fate: Ok(()),
            unclosed: true,
            line: line + 1,
            at: at + 1,
            least: least,
            actuators: actuators,
        };
    }
    if is_at(s, at, b"))\n") {
        return end_at(s, line, at + 3, least, actuators);
    }
    wrong_line(line, at, least, actuators)
}

// The next line of an open list.
#[tactic(auto, unfolding(crate::specs::Listing::next_line))]
fn next_line(s: &[u8], c: Listing) -> Listing
    requires { (c.line < 8192) × ((c.actuators.wheel_count < 8192) × (c.actuators.thruster_count < 8192)) }
    ensures { result ≡ Listings.next_line loose s.now c }
{
    let Some(item) = item_at(s, c.at) else {
        return wrong_line(c.line, c.at, c.least, c.actuators);
    };
    if place_of(item.kind) < c.least {
        return wrong_line(c.line, c.at, c.least, c.actuators);
    }
    let more = with_item(c.actuators, item);
    close_at(s, c.line, item.row.at, least_after(item.kind), more)
}

// Line 10, which begins the list.
#[tactic(auto, unfolding(crate::specs::Listing::first_line))]
fn first_line(s: &[u8], at: usize) -> Listing
    ensures { result ≡ Listings.first_line s.now at }
{
    let none = no_actuators();
    if !is_at(s, at, b" (actuators") {
        return wrong_line(10, at, 1, none);
    }
    close_at(s, 10, at + 11, 1, none)
}

// The whole list, from line 10 on: at most as many lines as there are bytes. Over 4,096 bytes there is none.
pub fn list_at(s: &[u8], at: usize) -> Listing
    ensures { result ≡ Listings.list_at_value loose s.now at }
{
    if s.len() > 4096 {
        return wrong_line(0, at, 1, no_actuators());
    }
    let mut c = first_line(s, at);
    for k in 0..s.len() {
        if !c.unclosed {
            return c;
        }
        c = next_line(s, c);
    }
    c
}
