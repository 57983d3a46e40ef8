// Systems of equations, and the step of a Levenberg-Marquardt iteration (`export_runs::systems`).
ghost use Rattle.std.specs.Prelude.{◌≡◌};
ghost use Rattle.elimination.specs.Elimination as Elimination;
ghost use Rattle.export_runs.specs.Systems as Systems;

#[unsafe(no_mangle)]
pub extern "C" fn slew_solve_dense(a: &mut [f64], b: &mut [f64]) -> bool
    ensures { Elimination.told result b.new ≡ Systems.solved a.old b.old }
{
    export_runs::systems::slew_solve_dense(a, b)
}

#[unsafe(no_mangle)]
pub extern "C" fn slew_damped_step(
    v: &mut [f64],
    m: usize,
    r: &[f64],
    lambda: f64,
    g: &mut [f64],
) -> bool
    ensures { Elimination.told result g.new ≡ Systems.stepped v.old m r.now lambda g.old }
{
    export_runs::systems::slew_damped_step(v, m, r, lambda, g)
}
