// Plans, dense samples and profiles of a declared problem, as a controller calls them from C: each function calls that of export with the same name,
// and promises the same.
//
// `rt lib` in this folder writes out/libexport_c.a, which C callers have as libexport.a. What a call is lent and told stands at the functions of
// export, and in include/slew.h.
#![tactic(auto)]

pub mod courses;
pub mod plans;
pub mod sampled;
pub mod texts;
