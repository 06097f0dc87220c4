// The chain from a block, and its positions (01, "A round").
#![tactic(auto)]

pub mod chain; // chain.rt: the chain search
pub mod places; // places.rt: the positions of a chain, inner Brs dropped
pub mod cursor; // cursor.rt: from one position of a chain to the next
pub mod pass; // pass.rt: the thresholds
pub mod positions; // positions.rt: the positions of a chain as an iterator
