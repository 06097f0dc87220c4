// The search of a round (01, "A round"): what the call begins with, and the next block whose chain is to be tried.
#![tactic(auto)]

pub mod begin; // begin.rt: facts on registers, predecessors, and the first rows
pub mod find; // find.rt: the next block whose chain is to be tried
