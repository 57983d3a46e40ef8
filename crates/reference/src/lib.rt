// Reference trajectories: for a problem and a number of steps, a rest-to-rest rotation about one axis that a floating table flies, with all its samples verified.
// `plan::plan` is the entry; samples come singly from `reference_checks::sample_of`, and nothing is kept between calls.
#![tactic(auto)]

pub mod layout;
pub mod plan;
pub mod prepare;
pub mod search;
