// elimination, damped_steps: systems of equations, and the step of a Levenberg-Marquardt iteration. Where the lengths do not fit the answer is false, as for a singular
// system.
ghost use Rattle.std.specs.Prelude.{◌≡◌};
ghost use Rattle.elimination.specs.Elimination as Elimination;
ghost use Rattle.export_runs.specs.Systems as Systems;

// The matrix has as many rows and columns as the right side b numbers, at most 193; b becomes the answer, the matrix is used up.
pub fn slew_solve_dense(a: &mut [f64], b: &mut [f64]) -> bool
    ensures { Elimination.told result b.new ≡ Systems.solved a.old b.old }
{
    let n = b.len();
    if n > 193 {
        return false;
    }
    if a.len() != n * n {
        return false;
    }
    elimination::solve_dense(a, b)
}

// v holds as many columns of m numbers as g has numbers, at most 193 of each, and after them room for the matrix; g becomes the step.
pub fn slew_damped_step(v: &mut [f64], m: usize, r: &[f64], lambda: f64, g: &mut [f64]) -> bool
    ensures { Elimination.told result g.new ≡ Systems.stepped v.old m r.now lambda g.old }
{
    let n = g.len();
    if n > 193 {
        return false;
    }
    if m > 193 {
        return false;
    }
    if r.len() < m {
        return false;
    }
    if v.len() != n * m + n * n {
        return false;
    }
    damped_steps::damped_step(v, m, r, lambda, g)
}
