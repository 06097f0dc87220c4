// The facts of a chain (01, "What changes shape": "`Run`'s facts become one record per position, in a lent list marked in place").
#![tactic(auto)]

// What is known of one position: its record's number; class 0 No, 1 Movable, 2 Free; where its value points, as an origin's number;
// the memory it writes, and reads, as 0 for none or an origin and 1 (the pieces of a Cat are 4294967295, to be looked up again); the
// first register it writes and the first two it reads, or absent; whether it reads or writes more; whether its value is a length, and
// it a layout; whether it creates, is a barrier, may suspend; and whether it is in the set. Laid out as C does, 40 bytes, so that a
// caller that is not Rattle can lend the list too.
#[repr(C)]
#[derive(Clone, Copy, Default)]
pub struct Fact {
    pub rec: u32,
    pub class: u32,
    pub org: u32,
    pub wrote: u32,
    pub from: u32,
    pub def: u32,
    pub use0: u32,
    pub use1: u32,
    pub more: bool,
    pub len: bool,
    pub layout: bool,
    pub creates: bool,
    pub barrier: bool,
    pub suspends: bool,
    pub member: bool,
}
