// The laws of the weighted mean of two floats: they stand in specs/, apart from the crate laws, so that what cites them is rechecked alone.
#![tactic(auto)]
