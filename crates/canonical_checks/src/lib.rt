// The laws between a problem's text and the checks: they stand in specs/, apart from the laws of the text, so that what cites them is rechecked alone.
#![tactic(auto)]
