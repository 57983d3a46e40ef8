// The C interface of the leaves: helpers on floats, angles, attitudes and tensors, profiles, thin over the proved libraries. export_leaves_c gives
// the functions their C symbols and makes the archive.
//
// In C an `&[f64; 3]` is a pointer to three doubles, an `&[f64]` a pointer and a count. A function that can refuse answers the refusal's
// number, or 0 where it gives an answer; where it refuses, what was lent for the answer is untouched.
#![tactic(auto)]

pub mod courses;
pub mod floats;
pub mod pack;
pub mod shapes;
pub mod turns;
pub mod whole;
