// A word for each register, its new name or absent (01, "The move"). The words are part of the work words that C lends, 64 bits each:
// so it is a word that says absent, and no `Option`.
ghost use Rattle.std.specs.Prelude.{◌≡◌, ℕ, ◌%◌, ◌≤◌, ◌<◌, length, replicate};
ghost use Rattle.model.specs.Picture.{inst};
ghost use Rattle.inst.specs.Index.{word_of, Among};
ghost use Rattle.inst.specs.Record.{write_at};
ghost use Rattle.rename.specs.Names.{reg_or, named, put_name, Forgot};

use inst::code::Slots;
use inst::index::Reg;
use inst::written::{change, change_written};
use model::ABSENT;

// How many words of 32 bits there are.
const WORDS: u64 = 4294967296;

// No new name, as a word of those lent.
const NONE: u64 = ABSENT as u64;

fn low(x: u64) -> u32
    ensures { result ≡ x % 4294967296 }
{
    (x % WORDS) as u32
}

// w, or x where w is absent.
pub fn or(w: u32, x: u32) -> u32
    ensures { result ≡ reg_or w x }
{
    if w == ABSENT {
        return x;
    }
    w
}

// The new name of r.
pub fn name(names: &[u64], r: Reg) -> u32
    requires { r.0 < length names.now }
    ensures { result ≡ named names.now r.0 }
{
    or(low(names[r.at()]), r.number())
}

// Register r, if it is one, has the name nw.
pub fn put(names: &mut [u64], r: Option<Reg>, nw: u32)
    requires { Among (length names.old) r }
    ensures { names.new ≡ put_name names.old (word_of r) nw }
{
    change(names, r, |_| u64::from(nw));
}

// No register has a new name.
pub fn clear(names: &mut [u64])
    ensures { names.new ≡ replicate (length names.old) 4294967295 }
{
    names.fill(NONE);
}

// The registers that a record writes keep their names from now on.
pub fn forget(slots: &Slots, names: &mut [u64])
    requires few { length names.old ≤ 4294967295 }
    requires by_index { (s : ℕ) → s < 5 → (write_at (inst slots.now.recs.now slots.now.p) s ≡ 4294967295 → ⊥) → write_at (inst slots.now.recs.now slots.now.p) s < length names.old }
    ensures { Forgot (inst slots.now.recs.now slots.now.p) names.old names.new }
{
    change_written(slots, names, |_| NONE);
}
