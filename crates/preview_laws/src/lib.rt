// What holds of previews and starts, whatever their sequence: laws over their definitions and the planner's promises. They stand in specs/.
#![tactic(auto)]
