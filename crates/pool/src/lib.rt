// New registers, as `apply` gives them (01, "The move": "a register is reused, last freed first, once its last reader is
// before the present member"). `allot` writes work words alone, so it is its own counting run: only when what it answers
// fits are the new registers' types written, by `add_types`.
#![tactic(auto)]

pub mod allot; // every member's turn
pub mod free; // the registers that are free
pub mod held; // the pool
pub mod turn; // one member's turn
pub mod types; // the new registers' types
