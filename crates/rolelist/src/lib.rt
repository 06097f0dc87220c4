// The list of kinds that the table of roles is printed from (crate `rolelist`): its lines, what a line says, and which line is the
// first that cannot stand.
#![tactic(auto)]

pub mod text; // text.rt: lines and words
pub mod line; // line.rt: what a line of the list says
pub mod listed; // listed.rt: which lines can stand where they are
