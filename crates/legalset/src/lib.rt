// What the crate `plan` is proved by (01, "The legal set"): the six rules as passes over a chain test them, and that dropping what
// breaks one, in any order, ends in `model`'s greatest legal set. Definitions in specs/, theorems in proofs/; no code.
#![tactic(auto)]
