// Equations of commutative rings, for proofs: they stand in specs/. No code.
#![tactic(auto)]
