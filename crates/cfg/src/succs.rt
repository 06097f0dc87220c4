// The successors of a block as an iterator (01, "The walk"): a `for` goes through them.
ghost use Rattle.std.specs.Prelude.{ℕ, ◌<◌, length, get_or};
ghost use Rattle.std.specs.Iterator.{YieldsFirst, item_count};

use inst::index::BlockId;

// Numbers that are each one of `count` blocks.
#[derive(Clone, Copy)]
pub struct Succs<'a> {
    pub(crate) list: &'a [u32],
    pub(crate) count: u32,
    ghost below: { (j : ℕ) → j < length list.now → get_or list.now j 0 < count },
}

impl<'a> Iterator for Succs<'a> {
    ghost use Rattle.cfg.specs.Succs.{left};

    type Item = BlockId;

    ghost next_gives = { YieldsFirst left };

    ghost remaining = { item_count left };

    fn next(&mut self) -> Option<BlockId> {
        let (b, rest) = self.list.split_first()?;
        self.list = rest;
        Some(BlockId::known(*b, self.count))
    }
}
