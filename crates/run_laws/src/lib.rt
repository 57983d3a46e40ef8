// What a forward run with nodes is: laws over the definitions of the step law. They stand in specs/, apart from the crate forward, so that what cites them is rechecked alone.
#![tactic(auto)]
