// One member's turn (01, "The move"): what nobody reads any more becomes free, and then the member gets a register for the one
// that it writes.
ghost use Rattle.std.specs.Prelude.{◌≡◌, ◌+◌, ◌<◌, length, get_or};
ghost use Rattle.std.specs.Option.{unwrap_or};
ghost use Rattle.model.specs.Picture.{absent};
ghost use Rattle.inst.specs.Index.{word_of, Among};

use crate::free::take_out;
use crate::held::{Pool, UNTIL};
use crate::types::width_of;
use inst::index::Reg;

// A member's position, its last use, and the register that it writes, if any.
#[derive(Clone, Copy)]
pub struct Member {
    pub at: u32,
    pub until: u32,
    pub def: Option<Reg>,
}

impl Pool {
    ghost use Rattle.pool.specs.Pool.{Gave, Turn, in_pool};

    // The topmost free register of type ty, or else the next, is held until `until`.
    fn give(&mut self, until: u32, ty: u32) -> u32
        requires { (in_pool self.old < 800) × (until < 4096) × (self.old.next < 131000) × (ty < 8) }
        ensures { Gave until ty self.old self.new result }
    {
        let Some(at) = self.find(ty) else {
            let reg = self.next;
            self.held.push(until * UNTIL + (reg * 8 + ty));
            self.next += width_of(ty);
            return reg;
        };
        let w = take_out(&mut self.free, at) % UNTIL;
        self.held.push(until * UNTIL + w);
        w / 8
    }

    // The turn of member m: registers whose last reader is before it become free; then it gets its own, if it writes one. That one is a
    // word and no `Reg`: a new one is not below the count in use, and until its type is written nothing goes by it.
    pub fn turn(&mut self, m: Member, types: &[u32]) -> Option<u32>
        requires room { (in_pool self.old < 800) × (m.until < 4096) × (self.old.next < 131000) }
        requires among { Among (length types.now) m.def × ((word_of m.def ≡ absent → ⊥) → get_or types.now (word_of m.def) 0 < 8) }
        ensures { Turn m.at m.until (word_of m.def) types.now self.old self.new (unwrap_or result absent) }
    {
        self.release(m.at);
        let d = m.def?;
        Some(self.give(m.until, types[d.at()]))
    }
}
