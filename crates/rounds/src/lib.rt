// What the call does beside its rounds (01, "The call" and "A round"): refusals and gates, its start, and where it stands.
#![tactic(auto)]

pub mod state; // state.rt: where the call stands; at most eight rounds
pub mod judge; // judge.rt: refusals and gates
pub mod start; // start.rt: before the first round
