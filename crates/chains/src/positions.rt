// The positions of a chain as an iterator (01, "A round": "the chain, inner Brs dropped"): a `for` goes along it.
ghost use Rattle.std.specs.Prelude.{◌≡◌};
ghost use Rattle.std.specs.Iterator.{YieldsFirst, item_count};
ghost use Rattle.model.specs.Picture.{Picture};
ghost use Rattle.model.specs.Move.{chain_places};
ghost use Rattle.chains.specs.Chain.{blocks_of};
ghost use Rattle.chains.specs.Places.{Laid};
ghost use Rattle.chains.specs.Cursor.{Standing};

use crate::chain::Chain;
use crate::cursor;
use crate::cursor::Cursor;

// What is left of chain c from a cursor on.
#[derive(Clone, Copy)]
pub struct Positions<'a> {
    bounds: &'a [u32],
    chain: Chain,
    at: Cursor,
    ghost laid: { Laid bounds.now chain },
    ghost standing: { Standing bounds.now chain at },
}

impl<'a> Positions<'a> {
    ghost use Rattle.chains.specs.Positions.{left};

    // All positions of chain c.
    pub fn new(bounds: &'a [u32], c: Chain) -> Self
        requires { Laid bounds.now c }
        ensures { (P : Picture) → P.bounds ≡ bounds.now → left result ≡ chain_places P (blocks_of c) }
    {
        Positions {
            bounds,
            chain: c,
            at: cursor::first(bounds, c),
        }
    }
}

impl<'a> Iterator for Positions<'a> {
    ghost use Rattle.chains.specs.Positions.{left};

    type Item = usize;

    ghost next_gives = { YieldsFirst left };

    ghost remaining = { item_count left };

    fn next(&mut self) -> Option<usize> {
        let g = self.at.g;
        if self.at.past <= g {
            return None;
        }
        self.at = cursor::next(self.bounds, self.chain, self.at);
        Some(g)
    }
}
