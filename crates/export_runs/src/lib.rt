// The C interface of actuators, control rows, systems and forward runs, thin over the proved libraries. export_runs_c gives the
// functions their C symbols and makes the archive.
//
// In C an `&[f64; 3]` is a pointer to three doubles, an `&[f64]` a pointer and a count. A function that can refuse answers the refusal's
// number, or 0 where it gives an answer; where it refuses, what was lent for the answer is untouched, but for the functions of `paths` and `rigs` that
// say they leave zeros.
#![tactic(auto)]

pub mod paths;
pub mod rigs;
pub mod systems;
