// The legal set of a chain (01, "The legal set"): 000's `plan`.
#![tactic(auto)]

pub mod sweep; // sweep.rt: a sweep over the facts
pub mod turn; // turn.rt: one backward and one forward
pub mod set; // set.rt: the legal set
