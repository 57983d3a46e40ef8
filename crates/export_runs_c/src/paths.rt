// One forward run of a problem as declared and a packed decision; its residuals (`export_runs::paths`).
ghost use Rattle.export_runs.specs.Paths as Paths;

#[unsafe(no_mangle)]
pub extern "C" fn slew_reconstruct(
    c: &[usize; 11],
    v: &[f64; 100],
    b: &[f64; 37],
    limited: bool,
    z: &[f64; 193],
    nodes: &mut [[f64; 22]; 17],
    defect: &mut f64,
    place: &mut usize,
    runs: &mut usize,
) -> usize
    ensures { Paths.RunTold (Paths.reconstructed c.now v.now b.now limited z.now)
        result place.new runs.new nodes.new defect.new }
{
    export_runs::paths::slew_reconstruct(c, v, b, limited, z, nodes, defect, place, runs)
}

#[unsafe(no_mangle)]
pub extern "C" fn slew_residuals(
    c: &[usize; 11],
    v: &[f64; 100],
    b: &[f64; 37],
    limited: bool,
    z: &[f64; 193],
    out: &mut [f64; 79],
    count: &mut usize,
    place: &mut usize,
    runs: &mut usize,
) -> usize
    ensures { Paths.ResidualsTold (Paths.measured c.now v.now b.now limited z.now)
        result place.new runs.new out.new count.new }
{
    export_runs::paths::slew_residuals(c, v, b, limited, z, out, count, place, runs)
}
