// A record's words (01, "The call": word 0 kind, word 1 form, words 2 to 6 registers, words 7 and 8 the list, 9 to 15
// payload). Record p takes sixteen words from 16 p on.
ghost use Rattle.std.specs.Prelude.{◌≡◌, ◌+◌, ◌<◌};
ghost use Rattle.inst.specs.Record.{word, Within};

// How many slots a record has.
pub const SLOTS: usize = 5;

// Record p of these: no value of this type has one that is not whole. (What is given a slice and a place makes it there, and asks `Within`
// once. That its kind is one of the table's, `Known`, stays a clause where the kind is looked up: a type of its own would be made and used
// at the same places.)
#[derive(Clone, Copy)]
pub struct Record<'a> {
    pub recs: &'a [u32],
    pub p: usize,
    ghost within: { Within recs.now p },
}

impl Record<'_> {
    // Word k.
    pub fn word(self, k: usize) -> u32
        requires { k < 16 }
        ensures { result ≡ word self.entry.recs.now self.entry.p k }
    {
        self.recs[16 * self.p + k]
    }

    pub fn kind(self) -> u32
        ensures { result ≡ word self.entry.recs.now self.entry.p 0 }
    {
        self.word(0)
    }

    pub fn form(self) -> u32
        ensures { result ≡ word self.entry.recs.now self.entry.p 1 }
    {
        self.word(1)
    }

    // Slot s of five, a register or absent.
    pub fn slot(self, s: usize) -> u32
        requires { s < 5 }
        ensures { result ≡ word self.entry.recs.now self.entry.p (2 + s) }
    {
        self.word(2 + s)
    }

    // Payload word k of seven.
    pub fn payload(self, k: usize) -> u32
        requires { k < 7 }
        ensures { result ≡ word self.entry.recs.now self.entry.p (9 + k) }
    {
        self.word(9 + k)
    }

    pub fn list_start(self) -> usize
        ensures { (result ≡ word self.entry.recs.now self.entry.p 7) × (result < 4294967296) }
    {
        self.word(7) as usize
    }

    pub fn list_len(self) -> usize
        ensures { (result ≡ word self.entry.recs.now self.entry.p 8) × (result < 4294967296) }
    {
        self.word(8) as usize
    }
}
