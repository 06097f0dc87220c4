// The move in place (01, "The move": "Members go to the target's head in order"): the records, locs and vias of the members,
// and the bounds of the blocks.
#![tactic(auto)]

pub mod bounds; // where the blocks lie after
pub mod gather; // the members of a segment saved, the others closed up
pub mod marks; // how many members there are
pub mod moving; // records, locs and vias of all members
pub mod records; // which records
pub mod segment; // a segment's members at the target's head
