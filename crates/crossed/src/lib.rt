// Nothing runs here: specs/ holds pictures that the Rust has run, and proofs/ that the definitions of `model` give the same.
#![tactic(auto)]
