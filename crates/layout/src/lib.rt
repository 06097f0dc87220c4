// A picture as bytes (document 01, "One listing whole"): specs/Layout defines it.
#![tactic(auto)]

mod parts; // parts.rt: how long each part is, and where it begins
pub mod read; // a picture from bytes
pub mod write; // a picture as bytes

// The program's sizes (document 01, "One listing whole", "Program: 64 blocks, .."): of each the most that it takes.
pub const BLOCKS: usize = 64;

pub const INSTS: usize = 512;

pub const REGISTERS: usize = 512;

pub const OPERANDS: usize = 2048;

pub const PAIRS: usize = 256;

pub const TARGETS: usize = 1024;

pub const REPLAY: usize = 64;

pub const VIAS: usize = 512;

// The most words of block bounds, two a block, and of records, sixteen an instruction.
pub const BOUNDS: usize = 2 * BLOCKS;

pub const RECS: usize = 16 * INSTS;

// The eight counts, in words and in bytes; the bytes of the largest picture.
pub const HEAD: usize = 8;

pub const HEAD_BYTES: usize = 4 * HEAD;

pub const PICTURE_BYTES: usize = 4
    * (HEAD + BOUNDS + RECS + INSTS + VIAS + REGISTERS + OPERANDS + PAIRS + TARGETS + REPLAY);

// How many blocks, instructions, registers and operands in use, pair words, target words, replay words and via words.
#[derive(Clone, Copy, Debug, PartialEq, Eq)]
pub struct Counts {
    pub blocks: u32,
    pub insts: u32,
    pub registers: u32,
    pub operands: u32,
    pub pairs: u32,
    pub targets: u32,
    pub replay: u32,
    pub vias: u32,
}

// The slices of a picture, in the order in which they lie behind the counts.
#[derive(Clone, Copy, Debug, PartialEq, Eq)]
pub enum Part {
    Bounds,
    Recs,
    Locs,
    Vias,
    Types,
    Ops,
    Pairs,
    Targets,
    Replay,
}

// The slices of a picture, lent: types and operands as many as are lent, not only those in use. (It is no `acceptance::Lent`: that one
// says with them how many are in use, and has no replay, of which acceptance reads nothing.)
#[derive(Clone, Copy)]
pub struct Slices<'a> {
    pub bounds: &'a [u32],
    pub recs: &'a [u32],
    pub locs: &'a [u32],
    pub vias: &'a [u32],
    pub types: &'a [u32],
    pub ops: &'a [u32],
    pub pairs: &'a [u32],
    pub targets: &'a [u32],
    pub replay: &'a [u32],
}
