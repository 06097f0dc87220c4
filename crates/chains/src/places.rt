// The positions of a chain (01, "A round": "the chain, inner Brs dropped, may have 800"): block by block, as record numbers.
ghost use Rattle.std.specs.Prelude.{◌≡◌, ◌<◌, length};
ghost use Rattle.model.specs.Picture.{Picture};
ghost use Rattle.model.specs.Move.{chain_places};
ghost use Rattle.chains.specs.Chain.{blocks_of};
ghost use Rattle.chains.specs.Places.{Laid, IsPart};

use crate::chain::Chain;

// The records from one number up to another.
#[derive(Clone, Copy, Debug, PartialEq, Eq)]
pub struct Part {
    pub from: usize,
    pub past: usize,
}

// The positions in the k-th block: all, or all but the Br where another block follows.
pub fn part_of(bounds: &[u32], c: Chain, k: u32) -> Part
    requires { Laid bounds.now c × (k < c.count) }
    ensures { IsPart bounds.now (blocks_of c) k result }
{
    let b = c.nth(k);
    let s = b.start(bounds);
    let e = b.past(bounds);
    if (k + 1 < c.count) & (s < e) {
        return Part {
            from: s,
            past: e - 1,
        };
    }
    Part { from: s, past: e }
}

// How many positions the chain has.
pub fn chain_len(bounds: &[u32], c: Chain) -> usize
    requires { Laid bounds.now c }
    ensures { (P : Picture) → P.bounds ≡ bounds.now → result ≡ length (chain_places P (blocks_of c)) }
{
    let mut n = 0;
    for k in 0..c.count {
        let part = part_of(bounds, c, k);
        n += part.past - part.from;
    }
    n
}
