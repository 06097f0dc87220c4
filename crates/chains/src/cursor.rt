// The positions of a chain one by one (01, "A round": "the chain, inner Brs dropped"): a cursor goes along it.
ghost use Rattle.std.specs.Prelude.{◌≡◌, ◌∷◌, ◌<◌};
ghost use Rattle.model.specs.Picture.{Picture};
ghost use Rattle.model.specs.Move.{chain_places};
ghost use Rattle.chains.specs.Chain.{blocks_of};
ghost use Rattle.chains.specs.Places.{Laid};
ghost use Rattle.chains.specs.Cursor.{left_of, Inside, Standing};

use crate::chain::Chain;
use crate::places::part_of;

// Block k of the chain, and the records from g up to past that are left of it.
#[derive(Clone, Copy)]
pub struct Cursor {
    pub k: u32,
    pub g: usize,
    pub past: usize,
}

// Over blocks of which no positions are left, to the next position or to the end of the last block.
fn seek(bounds: &[u32], c: Chain, from: Cursor) -> Cursor
    requires { Laid bounds.now c × Inside bounds.now c from.k from.g from.past }
    ensures { Standing bounds.now c result × ((P : Picture) → P.bounds ≡ bounds.now → left_of P (blocks_of c) from.k from.g from.past ≡ left_of P (blocks_of c) result.k result.g result.past) }
{
    let mut at = from;
    // How many blocks it passes is told by which are empty, not by a count.
    while (at.past <= at.g) & (at.k + 1 < c.count) {
        let k = at.k + 1;
        let part = part_of(bounds, c, k);
        at = Cursor {
            k,
            g: part.from,
            past: part.past,
        };
    }
    at
}

// At the first position.
pub fn first(bounds: &[u32], c: Chain) -> Cursor
    requires { Laid bounds.now c }
    ensures { Standing bounds.now c result × ((P : Picture) → P.bounds ≡ bounds.now → chain_places P (blocks_of c) ≡ left_of P (blocks_of c) result.k result.g result.past) }
{
    let part = part_of(bounds, c, 0);
    let from = Cursor {
        k: 0,
        g: part.from,
        past: part.past,
    };
    seek(bounds, c, from)
}

// From a position to the next.
pub fn next(bounds: &[u32], c: Chain, at: Cursor) -> Cursor
    requires { Laid bounds.now c × Standing bounds.now c at × (at.g < at.past) }
    ensures { Standing bounds.now c result × ((P : Picture) → P.bounds ≡ bounds.now → left_of P (blocks_of c) at.k at.g at.past ≡ at.g ∷ left_of P (blocks_of c) result.k result.g result.past) }
{
    seek(bounds, c, Cursor { g: at.g + 1, ..at })
}
