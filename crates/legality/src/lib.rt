// The six rules of the legal set (01, "The legal set"), a function of a fact each, and what a sweep decides of one position by them.
#![tactic(auto)]

pub mod rules; // rules.rt: rules 1 and 2
pub mod kept; // kept.rt: rules 3 to 6, against what the kept positions do
pub mod forward; // forward.rt: the sweep by rules 3 to 6
pub mod backward; // backward.rt: the sweep by rule 1, which makes the notes
mod known; // known.rt: the step of the sweep backward where the fact has all
pub mod start; // start.rt: the positions to begin with
