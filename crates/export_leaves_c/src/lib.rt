// The helpers on floats, angles, attitudes and tensors, and profiles, as C calls them: each function calls that of export_leaves with the same name,
// and promises the same.
//
// `rt lib` in this folder writes out/libexport_leaves_c.a, which C callers have as libexport_leaves.a. What a call is lent and told stands at the
// functions of export_leaves.
#![tactic(auto)]

pub mod courses;
pub mod floats;
pub mod shapes;
pub mod turns;
pub mod whole;
