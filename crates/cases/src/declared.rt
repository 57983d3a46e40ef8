// What a user declares, at the start of a case: eleven counts, a hundred numbers.
use crate::read::{at, reals};
use std::array::from_fn;

// The counts of what is declared.
pub fn counts(v: &[u64; 1024]) -> [usize; 11] {
    from_fn(|k| at(v, k) as usize)
}

// The numbers of what is declared.
pub fn numbers(v: &[u64; 1024]) -> [f64; 100] {
    reals(v, 11)
}
