// Theory only, and no function: the walk theorem of demand 3 over abstract programs.
// specs/Demand.antt states it, proofs/Whole.antt proves it.
#![tactic(auto)]
