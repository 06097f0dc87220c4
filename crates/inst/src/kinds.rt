// The kinds that code names, by their place in 001's `Inst` (01, "The call": "word 0 kind"); model/specs/Kinds has all. They stay
// numbers: a kind is a word of the lent picture, and is looked up in the table by it.
pub const CONST: u32 = 0;

pub const CONST_F: u32 = 1;

pub const ADDR_OF: u32 = 3;

pub const CAT: u32 = 39;

pub const CALL: u32 = 57;

pub const CALL_NATIVE: u32 = 58;

pub const CALL_INDIRECT: u32 = 60;

pub const CALL_PROT: u32 = 61;

pub const SIG_GATHER: u32 = 74;

pub const SUSPEND: u32 = 91;

// How many kinds there are, and the last.
pub(crate) const KINDS: usize = 101;

pub const LAST: u32 = KINDS as u32 - 1;
