// The published law, as C calls it: the function calls that of export_published with the same name, and promises the same. For the comparison with
// the unaltered Rust, and for nothing else.
//
// `rt lib` in this folder writes out/libexport_published_c.a, which C callers have as libexport_published.a. What a call is lent and told stands at
// the functions of export_published.
#![tactic(auto)]

ghost use Rattle.problem_numbers.specs.Declared as Declared;
ghost use Rattle.export_runs.specs.Paths.{RunTold};
ghost use Rattle.published_law.specs.Published as Published;

#[unsafe(no_mangle)]
pub extern "C" fn slew_published_reconstruct(
    c: &[usize; 11],
    v: &[f64; 100],
    b: &[f64; 37],
    limited: bool,
    z: &[f64; 193],
    nodes: &mut [[f64; 22]; 17],
    defect: &mut f64,
    place: &mut usize,
    runs: &mut usize,
) -> usize
    ensures { RunTold (Published.reconstruct (Declared.problem c.now v.now b.now limited) z.now)
        result place.new runs.new nodes.new defect.new }
{
    export_published::slew_published_reconstruct(c, v, b, limited, z, nodes, defect, place, runs)
}
