// What acceptance asks of the records, the lists and the tables (01, "The call", causes 4 to 9).
#![tactic(auto)]

pub mod records; // records.rt: causes 4, 5 and 8, of a record
pub mod lists; // lists.rt: causes 6 and 9
pub mod branches; // branches.rt: cause 7
pub mod plain; // plain.rt: records in which nothing is found
pub mod look; // look.rt: what causes 4 to 8 find in the records, in one pass
