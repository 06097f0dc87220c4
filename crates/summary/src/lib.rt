// What is noted of a chain while its legal set is found (01, "The legal set"): what its records read, a word a register, and what the
// kept positions do.
#![tactic(auto)]

pub mod reads; // reads.rt: what a record reads
pub mod stamps; // stamps.rt: a word a register
pub mod notes; // notes.rt: what the kept positions do
