// The C interface for a controller: plans, dense samples, profiles of a declared problem, thin over the proved libraries. export_c gives them
// their C symbols and makes the archive; export_leaves_c and export_runs_c do so for the functions below a plan.
//
// In C an `&[f64; 3]` is a pointer to three doubles, an `&[f64]` a pointer and a count. A function that can refuse answers the refusal's
// number, or 0 where it gives an answer; where it refuses, what was lent for the answer is untouched, but for the functions of `plans` and `sampled`
// that say they leave zeros.
#![tactic(auto)]

pub mod courses;
pub mod plans;
pub mod sampled;
pub mod texts;
