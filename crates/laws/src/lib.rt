// What is proved of `model`'s definitions (proofs/): theory only.
#![tactic(auto)]
