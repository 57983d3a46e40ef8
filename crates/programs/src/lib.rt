// What the programs do: each answers by a proved function, which owns the 8,000 numbers that it lends to the planner, and reads and writes around it.
#![tactic(auto)]

pub mod axis_plans;
pub mod dense_samples;
pub mod mosaics;
pub mod output;
pub mod plans;
pub mod words;
