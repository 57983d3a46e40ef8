// Whole numbers for the drive board, as C calls them: each function calls that of export_board with the same name, and promises the same.
//
// `rt lib` in this folder writes out/libexport_board_c.a, which C callers have as libexport_board.a. What a call is lent and told stands at the
// functions of export_board, and in include/slew.h.
#![tactic(auto)]

ghost use Rattle.std.specs.Prelude.{◌≡◌, length};
ghost use Rattle.geom.specs.Vec as Vec;
ghost use Rattle.drive_numbers.specs.Numbers as Numbers;
ghost use Rattle.drive_numbers.specs.Drive as Drive;
ghost use Rattle.drive_numbers.specs.Lists as Lists;
ghost use Rattle.export_leaves.specs.Outcomes.{number};
ghost use Rattle.export_board.specs.BoardAnswers.{SampleTold, ListTold};
ghost use Rattle.export_board.specs.Units as Units;

#[unsafe(no_mangle)]
pub extern "C" fn slew_board_part(x: f64, coarse: bool, out: &mut i32) -> usize
    ensures value { result ≡ number (Drive.of_whole (Numbers.part x (Units.unit coarse))) }
    ensures out_after { out.new ≡ Drive.number (Numbers.part x (Units.unit coarse)) }
{
    export_board::slew_board_part(x, coarse, out)
}

#[unsafe(no_mangle)]
pub extern "C" fn slew_board_read(n: i32, coarse: bool) -> f64
    ensures { result ≡ Numbers.read_back_value n (Units.unit coarse) }
{
    export_board::slew_board_read(n, coarse)
}

#[unsafe(no_mangle)]
pub extern "C" fn slew_board_sample(
    j: &[f64; 9],
    tolerance: f64,
    duration: f64,
    nodes: &[[f64; 22]; 17],
    requested: usize,
    alpha: f64,
    index: usize,
    out: &mut [i32; 13],
    place: &mut usize,
) -> usize
    ensures { SampleTold (Drive.drive_sample (Vec.tensor j.now) tolerance duration nodes.now requested alpha index)
        result place.new out.new }
{
    export_board::slew_board_sample(
        j, tolerance, duration, nodes, requested, alpha, index, out, place,
    )
}

#[unsafe(no_mangle)]
pub extern "C" fn slew_board_list(
    j: &[f64; 9],
    tolerance: f64,
    duration: f64,
    nodes: &[[f64; 22]; 17],
    requested: usize,
    alpha: f64,
    out: &mut [[i32; 13]],
    rows: &mut usize,
    place: &mut usize,
) -> usize
    ensures { ListTold
        (Lists.drive_list (Vec.tensor j.now) tolerance duration nodes.now requested alpha (length out.old))
        result place.new rows.new out.old out.new }
{
    export_board::slew_board_list(
        j, tolerance, duration, nodes, requested, alpha, out, rows, place,
    )
}
