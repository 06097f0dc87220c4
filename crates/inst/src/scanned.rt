// The first registers that a record reads and writes, in one struct: what `code::Slots::scan` gathers. (Beside visit.rt, which has all of
// them: a fact along a chain has room for the first alone, and so they are found in fewer instructions; docs/SPEED.md.)
ghost use Rattle.std.specs.Prelude.{◌≡◌, List, [], ◌++◌, get_or, ℕ};
ghost use Rattle.model.specs.Picture.{absent};
ghost use Rattle.inst.specs.Record.{present};
ghost use Rattle.inst.specs.Firsts.{Heads};

use model::ABSENT;

// The first three registers that a record reads, slots first and then its list, and the first two that it writes, as the words
// that stand there; absent where there is none. They stay words, each with its own name: each goes so into a field of a fact.
#[derive(Clone, Copy, PartialEq, Eq, Debug)]
pub struct Firsts {
    pub r0: u32,
    pub r1: u32,
    pub r2: u32,
    pub d0: u32,
    pub d1: u32,
}

impl Firsts {
    // Those of a list that is read.
    pub(crate) fn of_list(xs: &[u32]) -> Firsts
        ensures { Heads xs.now [] result }
    {
        Firsts {
            r0: nth_of(xs, 0),
            r1: nth_of(xs, 1),
            r2: nth_of(xs, 2),
            d0: ABSENT,
            d1: ABSENT,
        }
    }

    // Register r, or absent, is read before those of self.
    pub(crate) fn after_read(self, r: u32) -> Firsts
        ensures { (rs ds : List ℕ) → Heads rs ds self → Heads (present r ++ rs) ds result }
    {
        if r == ABSENT {
            return self;
        }
        Firsts {
            r0: r,
            r1: self.r0,
            r2: self.r1,
            ..self
        }
    }

    // Register r, or absent, is written before those of self. (Beside the one above: other fields move up.)
    pub(crate) fn after_write(self, r: u32) -> Firsts
        ensures { (rs ds : List ℕ) → Heads rs ds self → Heads rs (present r ++ ds) result }
    {
        if r == ABSENT {
            return self;
        }
        Firsts {
            d0: r,
            d1: self.d0,
            ..self
        }
    }
}

// The k-th of these words, or absent.
fn nth_of(xs: &[u32], k: usize) -> u32
    ensures { result ≡ get_or xs.now k absent }
{
    xs.get(k).copied().unwrap_or(ABSENT)
}
