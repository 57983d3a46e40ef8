// The laws of the quaternion product: they stand in specs/, apart from the crate geom, so that what cites them is rechecked alone.
#![tactic(auto)]
