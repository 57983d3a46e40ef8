// Previews and starts, as C calls them: each function calls that of export_preview with the same name, and promises the same.
//
// `rt lib` in this folder writes out/libexport_preview_c.a, which C callers have as libexport_preview.a. What a call is lent and told stands at the
// functions of export_preview, and in include/slew.h.
#![tactic(auto)]

ghost use Rattle.std.specs.Prelude.{◌≡◌, length};
ghost use Rattle.export.specs.Entries.{EntryTold};
ghost use Rattle.export_preview.specs.Numbers as Numbers;

#[unsafe(no_mangle)]
pub extern "C" fn slew_preview_numbers(
    c: &[usize; 11],
    v: &[f64; 100],
    b: &[f64; 37],
    limited: bool,
    wheels: usize,
    on_record: &[f64; 8],
    ws: &mut [f64],
    counts: &mut [usize; 5],
    duration: &mut f64,
    max_defect: &mut f64,
    z: &mut [f64; 193],
    nodes: &mut [[f64; 22]; 17],
    held: &mut [usize; 12],
    began_wheels: &mut usize,
    began: &mut [f64; 8],
) -> usize
    ensures entry_told { EntryTold
        (Numbers.own c.now v.now b.now limited wheels on_record.now (length ws.old)).planned
        ws.old ws.new result
        counts.new duration.new max_defect.new z.new nodes.new held.new }
    ensures began_wheels_after { began_wheels.new ≡ wheels }
    ensures began_after { began.new ≡ on_record.now }
{
    export_preview::slew_preview_numbers(
        c,
        v,
        b,
        limited,
        wheels,
        on_record,
        ws,
        counts,
        duration,
        max_defect,
        z,
        nodes,
        held,
        began_wheels,
        began,
    )
}

#[unsafe(no_mangle)]
pub extern "C" fn slew_preview_from_numbers(
    c: &[usize; 11],
    v: &[f64; 100],
    b: &[f64; 37],
    limited: bool,
    wheels: usize,
    on_record: &[f64; 8],
    seed_duration: f64,
    rates: &[f64],
    torques: &[f64],
    ws: &mut [f64],
    counts: &mut [usize; 5],
    duration: &mut f64,
    max_defect: &mut f64,
    z: &mut [f64; 193],
    nodes: &mut [[f64; 22]; 17],
    held: &mut [usize; 12],
    began_wheels: &mut usize,
    began: &mut [f64; 8],
) -> usize
    ensures entry_told { EntryTold
        (Numbers.seeded c.now v.now b.now limited wheels on_record.now
        seed_duration rates.now torques.now (length ws.old)).planned
        ws.old ws.new result
        counts.new duration.new max_defect.new z.new nodes.new held.new }
    ensures began_wheels_after { began_wheels.new ≡ wheels }
    ensures began_after { began.new ≡ on_record.now }
{
    export_preview::slew_preview_from_numbers(
        c,
        v,
        b,
        limited,
        wheels,
        on_record,
        seed_duration,
        rates,
        torques,
        ws,
        counts,
        duration,
        max_defect,
        z,
        nodes,
        held,
        began_wheels,
        began,
    )
}

#[unsafe(no_mangle)]
pub extern "C" fn slew_start(
    wheels: &mut usize,
    on_record: &mut [f64; 8],
    refusal: usize,
    began_wheels: usize,
    began: &[f64; 8],
    path_wheels: usize,
    nodes: &[[f64; 22]; 17],
    place: &mut usize,
) -> usize
    ensures { Numbers.StartTold
        (Numbers.start wheels.old on_record.old refusal began_wheels began.now path_wheels nodes.now)
        result place.new wheels.new on_record.new }
{
    export_preview::slew_start(
        wheels,
        on_record,
        refusal,
        began_wheels,
        began,
        path_wheels,
        nodes,
        place,
    )
}
