// Texts that a person writes and a program reads: bytes at a position, floats, the words of a line.
#![tactic(auto)]

pub mod hex;
pub mod lines;
pub mod places;
