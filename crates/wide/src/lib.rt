// Numbers of two words: products, and the whole square root.
#![tactic(auto)]

pub mod hint;
pub mod isqrt;
pub mod product;
