// What one instruction does, over numbers: origins, and the arms of `analyse` (01, "The legal set": kinds, origins, lengths,
// barriers and writes as in 000).
#![tactic(auto)]

pub mod origin; // origin.rt: origins as numbers, and what is known of a value
pub mod input; // input.rt: what an arm asks
pub mod arms; // arms.rt: the arms of `analyse`
