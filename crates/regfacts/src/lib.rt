// The facts on registers (01, "A round": "Facts on registers (read-only, frame, constant) come once, before round 1").
#![tactic(auto)]

pub mod flags; // flags.rt: the facts on registers, before round 1
