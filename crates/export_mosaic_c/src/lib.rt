// A whole mosaic, as C calls it: each function calls that of export_mosaic with the same name, and promises the same.
//
// `rt lib` in this folder writes out/libexport_mosaic_c.a, which C callers have as libexport_mosaic.a. What a call is lent and told stands at the
// functions of export_mosaic, and in include/slew.h.
#![tactic(auto)]

ghost use Rattle.std.specs.Prelude.{length};
ghost use Rattle.problem_numbers.specs.Declared as Declared;
ghost use Rattle.export_mosaic.specs.Cursors as Cursors;

#[unsafe(no_mangle)]
pub extern "C" fn slew_mosaic_next(
    c: &[usize; 11],
    v: &[f64; 100],
    b: &[f64; 37],
    limited: bool,
    way: usize,
    from: &[f64; 4],
    to: &[f64; 4],
    cursor: &mut [usize; 5],
    sums: &mut [f64; 9],
    ws: &mut [f64],
    counts: &mut [usize; 5],
    duration: &mut f64,
    max_defect: &mut f64,
    z: &mut [f64; 193],
    nodes: &mut [[f64; 22]; 17],
    held: &mut [usize; 12],
) -> usize
    ensures { Cursors.TurnTold
        (Cursors.turn way c.now v.now b.now limited from.now to.now
        cursor.old sums.old (length ws.old))
        cursor.new sums.new ws.old ws.new result
        counts.new duration.new max_defect.new z.new nodes.new held.new }
{
    export_mosaic::slew_mosaic_next(
        c, v, b, limited, way, from, to, cursor, sums, ws, counts, duration, max_defect, z, nodes,
        held,
    )
}

#[unsafe(no_mangle)]
pub extern "C" fn slew_mosaic(
    c: &[usize; 11],
    v: &[f64; 100],
    b: &[f64; 37],
    limited: bool,
    way: usize,
    tiles: &[[f64; 4]],
    counts: &mut [[usize; 4]],
    times: &mut [[f64; 2]],
    decisions: &mut [[f64; 193]],
    nodes: &mut [[[f64; 22]; 17]],
    ws: &mut [f64],
    cursor: &mut [usize; 5],
    sums: &mut [f64; 9],
) -> usize
    ensures { Cursors.WholeTold
        (Cursors.whole way (Declared.problem c.now v.now b.now limited) tiles.now
        counts.old times.old decisions.old nodes.old ws.old)
        result cursor.new sums.new
        counts.old counts.new times.old times.new decisions.old decisions.new
        nodes.old nodes.new ws.old ws.new }
{
    export_mosaic::slew_mosaic(
        c, v, b, limited, way, tiles, counts, times, decisions, nodes, ws, cursor, sums,
    )
}
