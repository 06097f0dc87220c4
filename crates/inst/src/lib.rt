// The record of an instruction, as document 01, "The call", lays it down: its words, and by the table of roles which
// registers it reads and writes.
#![tactic(auto)]

mod roles; // roles.rt: the table's words, printed
pub mod table; // table.rt: the table of roles, and a row of it
pub mod kinds; // kinds.rt: the kinds that code names
pub mod record; // record.rt: a record's words
pub mod scanned; // scanned.rt: the first registers that a record reads and writes
pub mod code; // code.rt: the records with the table and the operands, and the slots of one
pub mod constant; // constant.rt: the constant that a record holds
pub mod index; // index.rt: register numbers and block numbers
pub mod regs; // regs.rt: a few registers in one struct
pub mod visit; // visit.rt: what a record reads and writes, gathered in one visit
pub mod written; // written.rt: a word a register, changed at each that a record writes
