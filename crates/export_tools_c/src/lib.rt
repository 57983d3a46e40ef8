// What stands beside a plan, as C calls it: each function calls that of export_tools with the same name, and promises the same.
//
// `rt lib` in this folder writes out/libexport_tools_c.a, which C callers have as libexport_tools.a. What a call is lent and told stands at the
// functions of export_tools, and in include/slew.h.
#![tactic(auto)]

pub mod order;
pub mod planes;
pub mod region;
pub mod sentences;
pub mod texts;
