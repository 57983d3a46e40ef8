// The laws of floats that the planner's promises rest on: they stand in specs/, apart from the crate float, so that what cites them is rechecked alone.
#![tactic(auto)]
