// What the search keeps and what the end checks say: laws over the definitions of the search. They stand in specs/, apart from the crates of the code.
#![tactic(auto)]
