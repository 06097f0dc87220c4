// The lowest crate: rows of bits in lent words, words in lent bytes, and words moved. Its proofs/ are also the one home for laws on lists, tests,
// bits, loops and parts that the toolchain lacks.
#![tactic(auto)]

pub mod bits;
pub mod bytes;
pub mod copy;
