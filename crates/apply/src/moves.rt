// A move as a value, and what is walked for it.
ghost use Rattle.std.specs.Prelude.{◌≡◌, ◌+◌, ◌*◌, ◌<◌, length, get_or};

use inst::index::BlockId;
use rename::parts::{Span, Walk};

// From and into which block; the positions of the chain that are in the first one, but for its last, and of the whole chain; how
// many of them move.
#[derive(Clone, Copy, Debug, PartialEq, Eq)]
pub struct Move {
    pub from: BlockId,
    pub into: BlockId,
    pub inside: usize,
    pub places: usize,
    pub moved: u32,
}

impl Move {
    // What is walked for it, by the chain's words w.
    pub(crate) fn walk<'a>(self, bounds: &[u32], w: &'a [u32]) -> Walk<'a>
        requires { (2 * self.from.0 + 1 < length bounds.now) × (2 * self.into.0 + 1 < length bounds.now) }
        ensures from { result.from ≡ get_or bounds.now (2 * self.from.0) 0 }
        ensures inside { (result.inside ≡ self.inside) × (result.places ≡ self.places) }
        ensures start { result.target.from ≡ get_or bounds.now (2 * self.into.0) 0 }
        ensures end { result.target.past ≡ get_or bounds.now (2 * self.into.0 + 1) 0 }
        ensures words { result.w.now ≡ w.now }
    {
        Walk {
            from: self.from.start(bounds),
            inside: self.inside,
            places: self.places,
            target: Span {
                from: self.into.start(bounds),
                past: self.into.past(bounds),
            },
            w,
        }
    }
}
