// Plans of a problem as declared, on a lent workspace (`export::plans`).
ghost use Rattle.std.specs.Prelude.{length};
ghost use Rattle.export.specs.Entries as Entries;
ghost use Rattle.export.specs.Entries.{EntryTold};

#[unsafe(no_mangle)]
pub extern "C" fn slew_plan_numbers(
    c: &[usize; 11],
    v: &[f64; 100],
    b: &[f64; 37],
    limited: bool,
    ws: &mut [f64],
    counts: &mut [usize; 5],
    duration: &mut f64,
    max_defect: &mut f64,
    z: &mut [f64; 193],
    nodes: &mut [[f64; 22]; 17],
    held: &mut [usize; 12],
) -> usize
    ensures { EntryTold (Entries.own c.now v.now b.now limited (length ws.old))
        ws.old ws.new result
        counts.new duration.new max_defect.new z.new nodes.new held.new }
{
    export::plans::slew_plan_numbers(
        c, v, b, limited, ws, counts, duration, max_defect, z, nodes, held,
    )
}

#[unsafe(no_mangle)]
pub extern "C" fn slew_plan_from_numbers(
    c: &[usize; 11],
    v: &[f64; 100],
    b: &[f64; 37],
    limited: bool,
    seed_duration: f64,
    rates: &[f64],
    torques: &[f64],
    ws: &mut [f64],
    counts: &mut [usize; 5],
    duration: &mut f64,
    max_defect: &mut f64,
    z: &mut [f64; 193],
    nodes: &mut [[f64; 22]; 17],
    held: &mut [usize; 12],
) -> usize
    ensures { EntryTold
        (Entries.seeded c.now v.now b.now limited seed_duration rates.now torques.now
        (length ws.old))
        ws.old ws.new result
        counts.new duration.new max_defect.new z.new nodes.new held.new }
{
    export::plans::slew_plan_from_numbers(
        c,
        v,
        b,
        limited,
        seed_duration,
        rates,
        torques,
        ws,
        counts,
        duration,
        max_defect,
        z,
        nodes,
        held,
    )
}
