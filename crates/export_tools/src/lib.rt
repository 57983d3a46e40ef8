// The C interface of what stands beside a plan, thin over the proved libraries. export_tools_c gives the functions their C
// symbols and makes the archive.
//
// In C a slice is a pointer and a count. A function that can refuse answers the refusal's number, or 0 where it gives an answer; where it refuses, what was
// lent for the answer is untouched, but for the functions that say they leave zeros.
#![tactic(auto)]

pub mod order;
pub mod planes;
pub mod region;
pub mod sentences;
pub mod texts;
