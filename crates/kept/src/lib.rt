// Demand 3 of `model`'s pass: theory only. specs/Walk states it, proofs/Answer proves it.
#![tactic(auto)]
