// docs/SPECIFICATION.md, "Examples": one list, one fact over all of it, in specs/Examples.antt. No code of its own.
#![tactic(auto)]
