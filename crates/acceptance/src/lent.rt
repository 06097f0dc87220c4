// A picture as its slices are lent (01, "The call").
use sizes::InUse;

// Eight shared slices, and how many registers and operands are in use. (Replay has no part in acceptance.)
#[derive(Clone, Copy)]
pub struct Lent<'a> {
    pub bounds: &'a [u32],
    pub recs: &'a [u32],
    pub locs: &'a [u32],
    pub vias: &'a [u32],
    pub types: &'a [u32],
    pub ops: &'a [u32],
    pub pairs: &'a [u32],
    pub targets: &'a [u32],
    pub used: InUse,
}
