// The wheels' momenta on record: whether they still have the bits that a preview began from, and what a start makes of them.
#![tactic(auto)]

ghost use Rattle.std.specs.Prelude.{◌≡◌, ◌<◌};
ghost use Rattle.wheel_record.specs.Commits as Commits;

use common::Refusal;
use float_bits::same_bits;
use problem::Momenta;

// What a start answers: whether it was started, else 26 and its place; and the momenta on record after it.
#[derive(Clone, Copy)]
pub struct Started {
    pub fate: Result<(), Refusal>,
    pub on_record: Momenta,
}

// Whether both have wheel k, and with the same bits.
#[tactic(auto, unfolding(crate::specs::Commits::same_wheel))]
fn same_wheel(m: Momenta, n: Momenta, k: usize) -> bool
    requires { k < 8 }
    ensures { result ≡ Commits.same_wheel m n k }
{
    k < m.count && k < n.count && same_bits(m.at[k], n.at[k])
}

// How many wheels, from the first on, are the same in both.
fn leading_same(m: Momenta, n: Momenta) -> usize
    ensures { result ≡ Commits.leading_same m n }
{
    for k in 0..8 {
        if !same_wheel(m, n, k) {
            return k;
        }
    }
    8
}

// 26 at a wheel: the record stays.
fn not_started(on_record: Momenta, wheel: usize) -> Started
    ensures { result ≡ Commits.not_started on_record wheel }
{
    Started {
        fate: Err(Refusal {
            number: 26,
            place: wheel,
        }),
        on_record,
    }
}

// A start of a preview that began from the momenta `began` and, where it was answered, ends with `last`.
#[tactic(auto, unfolding(crate::specs::Commits::commit))]
pub fn commit(on_record: Momenta, answered: bool, began: Momenta, last: Momenta) -> Started
    ensures { result ≡ Commits.commit on_record answered began last }
{
    if !answered {
        return not_started(on_record, 0);
    }
    let k = leading_same(on_record, began);
    if k != on_record.count || k != began.count {
        return not_started(on_record, k);
    }
    Started {
        fate: Ok(()),
        on_record: last,
    }
}
