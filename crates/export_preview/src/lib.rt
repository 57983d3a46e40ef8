// The C interface of previews and starts, thin over the proved library. export_preview_c gives the functions their C symbols and
// makes the archive.
//
// The momenta on record are a count of wheels and eight numbers, which the caller keeps. A preview is what the caller holds of it: the number that it answered,
// the momenta that it began from, and its path's wheels and nodes.
#![tactic(auto)]

ghost use Rattle.std.specs.Prelude.{◌≡◌, length};
ghost use Rattle.export.specs.Entries.{EntryTold};
ghost use Rattle.export_preview.specs.Numbers as Numbers;

use export::plans::put_planned;
use export_leaves::pack::{number_of, place_of};
use preview::Previewed;
use problem::Momenta;
use problem_numbers::problem_of;
use wheel_record::commit;

// The momenta of so many wheels.
fn momenta_of(wheels: usize, at: &[f64; 8]) -> Momenta
    ensures { result ≡ Numbers.momenta wheels at.now }
{
    let v = *at;
    Momenta {
        count: wheels,
        at: v,
    }
}

// The momenta that a path's rows end with.
fn last_of(wheels: usize, nodes: &[[f64; 22]; 17]) -> Momenta
    ensures { result ≡ Numbers.last wheels nodes.now }
{
    let n = nodes[16];
    let v = [n[14], n[15], n[16], n[17], n[18], n[19], n[20], n[21]];
    Momenta {
        count: wheels,
        at: v,
    }
}

// The momenta that a preview began from are put into what is lent for them.
fn put_began(r: Previewed, began_wheels: &mut usize, began: &mut [f64; 8])
    ensures began_wheels_after { began_wheels.new ≡ r.began.count }
    ensures began_after { began.new ≡ r.began.at }
{
    let from = r.began;
    let at = from.at;
    *began_wheels = from.count;
    *began = at;
}

// A preview from the momenta on record, with our own seed. What is answered and put is as in `slew_plan_numbers`, and besides the momenta that the preview
// began from.
pub fn slew_preview_numbers(
    c: &[usize; 11],
    v: &[f64; 100],
    b: &[f64; 37],
    limited: bool,
    wheels: usize,
    on_record: &[f64; 8],
    ws: &mut [f64],
    counts: &mut [usize; 5],
    duration: &mut f64,
    max_defect: &mut f64,
    z: &mut [f64; 193],
    nodes: &mut [[f64; 22]; 17],
    held: &mut [usize; 12],
    began_wheels: &mut usize,
    began: &mut [f64; 8],
) -> usize
    ensures entry_told { EntryTold
        (Numbers.own c.now v.now b.now limited wheels on_record.now (length ws.old)).planned
        ws.old ws.new result
        counts.new duration.new max_defect.new z.new nodes.new held.new }
    ensures began_wheels_after { began_wheels.new ≡ wheels }
    ensures began_after { began.new ≡ on_record.now }
{
    let p = problem_of(c, v, b, limited);
    let m = momenta_of(wheels, on_record);
    let made = preview::preview(m, p, ws);
    put_began(made, began_wheels, began);
    let planned = made.planned;
    put_planned(planned, counts, duration, max_defect, z, nodes, held)
}

// The same with a caller's seed.
pub fn slew_preview_from_numbers(
    c: &[usize; 11],
    v: &[f64; 100],
    b: &[f64; 37],
    limited: bool,
    wheels: usize,
    on_record: &[f64; 8],
    seed_duration: f64,
    rates: &[f64],
    torques: &[f64],
    ws: &mut [f64],
    counts: &mut [usize; 5],
    duration: &mut f64,
    max_defect: &mut f64,
    z: &mut [f64; 193],
    nodes: &mut [[f64; 22]; 17],
    held: &mut [usize; 12],
    began_wheels: &mut usize,
    began: &mut [f64; 8],
) -> usize
    ensures entry_told { EntryTold
        (Numbers.seeded c.now v.now b.now limited wheels on_record.now
        seed_duration rates.now torques.now (length ws.old)).planned
        ws.old ws.new result
        counts.new duration.new max_defect.new z.new nodes.new held.new }
    ensures began_wheels_after { began_wheels.new ≡ wheels }
    ensures began_after { began.new ≡ on_record.now }
{
    let p = problem_of(c, v, b, limited);
    let m = momenta_of(wheels, on_record);
    let made = preview::preview_from(m, p, seed_duration, rates, torques, ws);
    put_began(made, began_wheels, began);
    let planned = made.planned;
    put_planned(planned, counts, duration, max_defect, z, nodes, held)
}

// The start of a preview that the caller holds: 0, and the momenta on record are the path's last; or 26, and they are as they were.
pub fn slew_start(
    wheels: &mut usize,
    on_record: &mut [f64; 8],
    refusal: usize,
    began_wheels: usize,
    began: &[f64; 8],
    path_wheels: usize,
    nodes: &[[f64; 22]; 17],
    place: &mut usize,
) -> usize
    ensures { Numbers.StartTold
        (Numbers.start wheels.old on_record.old refusal began_wheels began.now path_wheels nodes.now)
        result place.new wheels.new on_record.new }
{
    let held = *on_record;
    let m = Momenta {
        count: *wheels,
        at: held,
    };
    let from = momenta_of(began_wheels, began);
    let last = last_of(path_wheels, nodes);
    let made = commit(m, refusal == 0, from, last);
    let fate = made.fate;
    let after = made.on_record;
    let at = after.at;
    *wheels = after.count;
    *on_record = at;
    *place = place_of(fate);
    number_of(fate)
}
