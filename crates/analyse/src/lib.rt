// 000's `analyse` (01, "A round" and "The legal set"): the facts along a chain.
#![tactic(auto)]

pub mod look; // look.rt: what is known of a register at a position
pub mod judge; // judge.rt: what the instruction at a position does
pub mod marks; // marks.rt: the last writer of each register, and what it left
pub mod learn; // learn.rt: the fact of one position
pub mod along; // along.rt: the facts along a chain
