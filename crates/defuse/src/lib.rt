// What a block reads before it writes it, and what it writes (01, "A round"), in rows of bits, and who alone writes a register.
#![tactic(auto)]

pub mod sets; // sets.rt: what a run of instructions reads first and writes
pub mod writers; // writers.rt: the only writer of each register
