// One round (01, "A round" and "The move"): its move found, weighed against the room that is lent, and made.
#![tactic(auto)]

pub mod weigh; // weigh.rt: what the move comes to
pub mod make; // make.rt: the move made, and the rows of the blocks that changed
pub mod round; // round.rt: one round by itself
