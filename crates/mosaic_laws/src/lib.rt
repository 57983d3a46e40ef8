// The laws of a whole mosaic, over any planner of one slew: what each leg is, the sums, where it stops, and a mosaic cut at a tile. They stand in specs/.
#![tactic(auto)]
