// Where the rows of bits lie (docs/DESIGN.md, "The words of a chain, and its facts"): of n blocks, n rows of live-in, n of what each
// block writes, one of the registers needed elsewhere, and n of what each block reads before it writes it.
ghost use Rattle.std.specs.Prelude.{◌≡◌, ◌+◌, ◌*◌, ◌^◌, ◌<◌};

use inst::index::BlockId;

// How many blocks there are, and how many words a row has.
#[derive(Clone, Copy, PartialEq, Eq, Debug)]
pub struct Grid {
    pub blocks: u32,
    pub width: usize,
}

impl Grid {
    // Where row k begins, which is how many words k rows have.
    pub(crate) fn row(self, k: usize) -> usize
        requires { k * self.width < 2 ^ 64 }
        ensures { result ≡ k * self.width }
    {
        k * self.width
    }

    // Where the row of what is live into block b begins.
    pub(crate) fn live(self, b: BlockId) -> usize
        requires { b.0 * self.width < 2 ^ 64 }
        ensures { result ≡ b.0 * self.width }
    {
        self.row(b.at())
    }

    // Where the row of what block b writes begins.
    pub(crate) fn writes(self, b: BlockId) -> usize
        requires { (self.blocks + b.0) * self.width < 2 ^ 64 }
        ensures { result ≡ (self.blocks + b.0) * self.width }
    {
        self.row(self.blocks as usize + b.at())
    }

    // Where the row of the registers needed elsewhere begins.
    pub fn needed(self) -> usize
        requires { self.blocks * self.width + self.blocks * self.width < 2 ^ 64 }
        ensures { result ≡ self.blocks * self.width + self.blocks * self.width }
    {
        self.row(2 * self.blocks as usize)
    }

    // Where the row of what block b reads before it writes it begins.
    pub(crate) fn first(self, b: BlockId) -> usize
        requires { (2 * self.blocks + 1 + b.0) * self.width < 2 ^ 64 }
        ensures { result ≡ (2 * self.blocks + 1 + b.0) * self.width }
    {
        self.row(2 * self.blocks as usize + 1 + b.at())
    }
}
