// Renaming in place (01, "The move": "Reads in the target before the target's own write are renamed. Changed lists are appended
// to the operands"). One word a register, its new name or absent, does it all: walking x in order, a member's old register
// gets its new name and a kept write sets it back; for the target the words stand as they are after the whole chain.
#![tactic(auto)]

pub mod all; // the whole walk, counted or done
pub mod count; // what it would append
pub mod lists; // a record's list
pub mod names; // the names
pub mod parts; // what is walked
pub mod remake; // one record
pub mod slots; // its slots
pub mod walk; // the walk that renames
