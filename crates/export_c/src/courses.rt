// The profile of a problem as declared (`export::courses`).
ghost use Rattle.export_leaves.specs.Outcomes.{AnsweredAt};
ghost use Rattle.export.specs.Entries as Entries;

#[unsafe(no_mangle)]
pub extern "C" fn slew_problem_profile(
    c: &[usize; 11],
    v: &[f64; 100],
    b: &[f64; 37],
    limited: bool,
    out: &mut [f64; 22],
    place: &mut usize,
) -> usize
    ensures { AnsweredAt (Entries.profile c.now v.now b.now limited)
        result place.new out.old out.new }
{
    export::courses::slew_problem_profile(c, v, b, limited, out, place)
}
