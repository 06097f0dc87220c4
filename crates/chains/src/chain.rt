// The chain search (01, "A round": "Chain from block x: follow Br until CondBr"): its answer is a chain of up to six blocks,
// or none, and the caller stops on none.
ghost use Rattle.std.specs.Prelude.{◌≡◌, [], ◌∷◌, ◌++◌, ℕ, ◌+◌, ◌*◌, ◌≤◌, ◌<◌, length, get_or, not, ◌&&◌};
ghost use Rattle.words.specs.Lists.{mem, same};
ghost use Rattle.model.specs.Picture.{Picture, callers};
ghost use Rattle.chains.specs.Chain.{blocks_of, last_of, ended, chain_of, ending_of, end_in, Few, Sound, SoundOf, Block, Blocks, Preds, Next, Found};

use inst::index::BlockId;
use inst::record::Record;
use inst::table::{Shape, Table};

// Of the blocks the first `count` are in use; t and f are where the last of them goes.
#[derive(Clone, Copy)]
pub struct Chain {
    pub blocks: [BlockId; 6],
    pub count: u32,
    pub t: BlockId,
    pub f: BlockId,
}

// How a block ends, for a chain.
#[derive(Clone, Copy)]
pub enum Ending {
    Goes(u32),
    Parts(u32, u32),
    Stops,
}

impl Chain {
    // Block b alone.
    pub fn start(b: BlockId) -> Self
        ensures { (blocks_of result ≡ (b.0 ∷ [])) × (result.count ≡ 1) }
    {
        Self {
            blocks: [b; 6],
            count: 1,
            t: b,
            f: b,
        }
    }

    // The k-th block.
    pub fn nth(self, k: u32) -> BlockId
        requires { Few self × (k < self.count) }
        ensures { result.0 ≡ get_or (blocks_of self) k 0 }
    {
        self.blocks[k as usize]
    }

    // The last block.
    pub fn last(self) -> BlockId
        requires { Few self }
        ensures { result.0 ≡ last_of self }
    {
        self.nth(self.count - 1)
    }

    // Does it have block b?
    pub fn has(self, b: BlockId) -> bool
        requires { Few self }
        ensures { result ≡ mem b.0 (blocks_of self) }
    {
        self.blocks[..self.count as usize].contains(&b)
    }

    // Is block b a target: not in the chain, and its sole predecessor the chain's end?
    pub fn is_target(self, preds: &[u32], b: BlockId) -> bool
        requires { Few self × (2 * b.0 + 1 < length preds.now) }
        ensures { (P : Picture) (n : ℕ) → b.0 < n → Preds P preds.now n → result ≡ (not (mem b.0 (blocks_of self)) && same (callers P b.0) (last_of self ∷ [])) }
    {
        if self.has(b) {
            return false;
        }
        let at = b.at();
        (preds[2 * at] == 1) & (preds[2 * at + 1] == self.last().number())
    }

    // One block more.
    fn with(self, b: BlockId) -> Self
        requires { (1 ≤ self.count) × (self.count < 6) }
        ensures { (blocks_of result ≡ blocks_of self ++ (b.0 ∷ [])) × (result.count ≡ self.count + 1) }
    {
        let mut c = self;
        c.blocks[self.count as usize] = b;
        c.count += 1;
        c
    }

    // Its last block goes to t or f.
    fn ends(self, t: u32, f: u32, blocks: u32) -> Option<Chain>
        requires { Sound self blocks × (t < blocks) × (f < blocks) }
        ensures { SoundOf result blocks × (chain_of result ≡ ended self t f) }
    {
        let t = BlockId::new(t, blocks)?;
        let f = BlockId::new(f, blocks)?;
        Some(Chain { t, f, ..self })
    }

    // With block `to`, if that may be gathered: at most six, one predecessor, none twice.
    fn next(self, preds: &[u32], to: u32, blocks: u32) -> Option<Chain>
        requires { Sound self blocks × (to < blocks) × (2 * blocks ≤ length preds.now) }
        ensures { Next self to preds.now blocks result }
    {
        let b = BlockId::new(to, blocks)?;
        if self.count == 6 {
            return None;
        }
        if preds[2 * b.at()] != 1 {
            return None;
        }
        if self.has(b) {
            return None;
        }
        Some(self.with(b))
    }
}

// How block b ends: the table of roles tells it of its last record, alike at each form.
pub fn end_of(table: &Table, bounds: &[u32], recs: &[u32], b: usize) -> Ending
    requires { Block bounds.now recs.now b }
    ensures { result ≡ ending_of (end_in bounds.now recs.now b) }
{
    let s = bounds[2 * b] as usize;
    let e = bounds[2 * b + 1] as usize;
    if e <= s {
        return Ending::Stops;
    }
    let last = Record { recs, p: e - 1 };
    match table.row(last.kind(), 0).shape() {
        Shape::Goes => Ending::Goes(last.payload(0)),
        Shape::Parts => Ending::Parts(last.payload(0), last.payload(1)),
        Shape::Cases | Shape::Stops => Ending::Stops,
    }
}

// The chain from block x.
pub fn find_chain(
    table: &Table,
    bounds: &[u32],
    recs: &[u32],
    preds: &[u32],
    x: BlockId,
    blocks: u32,
) -> Option<Chain>
    requires { Blocks bounds.now recs.now blocks × (2 * blocks ≤ length preds.now) × (x.0 < blocks) }
    ensures { Found bounds.now recs.now preds.now x.0 blocks result }
{
    let mut c = Chain::start(x);
    for _i in 0..6u32 {
        match end_of(table, bounds, recs, c.last().at()) {
            Ending::Goes(to) => c = c.next(preds, to, blocks)?,
            Ending::Parts(t, f) => return c.ends(t, f, blocks),
            Ending::Stops => return None,
        }
    }
    None
}
