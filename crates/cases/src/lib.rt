// What the programs that run stored cases share: the words of a case, the floats among them, what a user declares, counts of what differs, and the run over the
// input.
#![tactic(auto)]

pub mod blocks;
pub mod declared;
pub mod read;
pub mod tally;
