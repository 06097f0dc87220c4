// What is tested of a chain before its facts are found (01, "A round").
#![tactic(auto)]

pub mod look; // look.rt: what a chain must have to be looked at
