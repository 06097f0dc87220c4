// What stands in each part of the work slices (specs/Work), and the chain's words for the move (01, "The move"), written there from the
// list of facts.
#![tactic(auto)]

pub mod marks; // marks.rt: the chain's words for the move
