// The last use of each value along a chain (01, "The move": "once its last reader is before the present member").
#![tactic(auto)]

pub mod uses; // uses.rt: the last use of each position's value
