// What holds of the dense samples of an answered path: laws over the definitions of the samples and the planner's promises. They stand in specs/.
#![tactic(auto)]
