// The ten work words that a position of the chain has for the move (01, "Port order and sizes"), position p from PLACE * p on. The
// first one is the number of its record. (Numbered words and no fields: they are words of the 32-bit slice that C lends.)
#![tactic(auto)]

// How many words a position has.
pub const PLACE: usize = 10;

// Is it a member? Not 0 if so.
pub const MARK: usize = 6;

// Its last use.
pub const LAST: usize = 7;

// The register that it writes, or absent.
pub const DEF: usize = 8;

// The register that it gets in its place, or absent.
pub const NEW: usize = 9;
