// The C interface of whole numbers for the drive board, thin over the proved library. export_board_c gives the functions their C
// symbols and makes the archive.
//
// In C an `&mut [[i32; 13]]` is a pointer to rows of 13 numbers and a count of rows. A function that can refuse answers the refusal's number, or 0 where it
// gives an answer. A unit is 2^-20 where `coarse` is true (rate, torque, momentum) and else 2^-30 (attitude).
#![tactic(auto)]

ghost use Rattle.std.specs.Prelude.{◌≡◌, length};
ghost use Rattle.geom.specs.Vec as Vec;
ghost use Rattle.drive_numbers.specs.Numbers as Numbers;
ghost use Rattle.drive_numbers.specs.Drive as Drive;
ghost use Rattle.drive_numbers.specs.Lists as Lists;
ghost use Rattle.export_leaves.specs.Outcomes.{number};
ghost use Rattle.export_board.specs.BoardAnswers.{SampleTold, ListTold};
ghost use Rattle.export_board.specs.Units as Units;

use drive_numbers::lists::drive_list;
use drive_numbers::{Unit, drive_sample, part, read_back};
use export_leaves::pack::{number_of, place_of};

fn unit_of(coarse: bool) -> Unit
    ensures { result ≡ Units.unit coarse }
{
    if coarse { Unit::Coarse } else { Unit::Fine }
}

// 24 and a 0, or 0 and the number.
fn put_part(w: Option<i32>, out: &mut i32) -> usize
    ensures value { result ≡ number (Drive.of_whole w) }
    ensures out_after { out.new ≡ Drive.number w }
{
    match w {
        Some(n) => {
            *out = n;
            0
        }
        None => {
            *out = 0;
            24
        }
    }
}

// A part in whole units.
pub fn slew_board_part(x: f64, coarse: bool, out: &mut i32) -> usize
    ensures value { result ≡ number (Drive.of_whole (Numbers.part x (Units.unit coarse))) }
    ensures out_after { out.new ≡ Drive.number (Numbers.part x (Units.unit coarse)) }
{
    put_part(part(x, unit_of(coarse)), out)
}

// The float that a number of units stands for.
pub fn slew_board_read(n: i32, coarse: bool) -> f64
    ensures { result ≡ Numbers.read_back_value n (Units.unit coarse) }
{
    read_back(n, unit_of(coarse))
}

// Sample number index of a path: 13 numbers, zeros beside a refusal.
pub fn slew_board_sample(
    j: &[f64; 9],
    tolerance: f64,
    duration: f64,
    nodes: &[[f64; 22]; 17],
    requested: usize,
    alpha: f64,
    index: usize,
    out: &mut [i32; 13],
    place: &mut usize,
) -> usize
    ensures { SampleTold (Drive.drive_sample (Vec.tensor j.now) tolerance duration nodes.now requested alpha index)
        result place.new out.new }
{
    let inertia = geom::tensor(*j);
    match drive_sample(inertia, tolerance, duration, nodes, requested, alpha, index) {
        Ok(numbers) => {
            *out = numbers;
            *place = 0;
            0
        }
        Err(why) => {
            *out = [0; 13];
            *place = why.place;
            why.number
        }
    }
}

// The whole list of a path: a row a sample, and how many rows were written. What stands behind them stays. Fewer rows lent than there are samples get
// nothing: 99.
pub fn slew_board_list(
    j: &[f64; 9],
    tolerance: f64,
    duration: f64,
    nodes: &[[f64; 22]; 17],
    requested: usize,
    alpha: f64,
    out: &mut [[i32; 13]],
    rows: &mut usize,
    place: &mut usize,
) -> usize
    ensures { ListTold
        (Lists.drive_list (Vec.tensor j.now) tolerance duration nodes.now requested alpha (length out.old))
        result place.new rows.new out.old out.new }
{
    let inertia = geom::tensor(*j);
    let made = drive_list(inertia, tolerance, duration, nodes, requested, alpha, out);
    *rows = made.rows;
    *place = place_of(made.fate);
    number_of(made.fate)
}
