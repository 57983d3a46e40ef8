// The laws of controls held to their limits: they stand in specs/, apart from the crate controls, so that what cites them is rechecked alone.
#![tactic(auto)]
