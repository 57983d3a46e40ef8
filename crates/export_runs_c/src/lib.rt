// Actuators, control rows, systems and forward runs, as C calls them: each function calls that of export_runs with the same name, and promises the
// same.
//
// `rt lib` in this folder writes out/libexport_runs_c.a, which C callers have as libexport_runs.a. What a call is lent and told stands at the
// functions of export_runs, and in include/slew.h.
#![tactic(auto)]

pub mod paths;
pub mod rigs;
pub mod systems;
