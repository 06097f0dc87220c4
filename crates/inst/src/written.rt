// A word a register, changed at each register that a record writes.
ghost use Rattle.std.specs.Prelude.{◌≡◌, ℕ, ◌≤◌, ◌<◌, length};
ghost use Rattle.model.specs.Picture.{inst, absent};
ghost use Rattle.inst.specs.Index.{word_of, Among};
ghost use Rattle.inst.specs.Record.{write_at};
ghost use Rattle.inst.specs.Written.{put_in, Written, Makes};

use crate::code::Slots;
use crate::index::Reg;

// The word of register r, if it is one, becomes what f makes of it.
pub fn change<F: Fn(u64) -> u64>(words: &mut [u64], r: Option<Reg>, f: F)
    requires among { Among (length words.old) r }
    requires can { F.IsAlwaysCallable f }
    ensures { (g : ℕ → ℕ) → Makes (F.post f) g → words.new ≡ put_in g (word_of r) words.old }
{
    let Some(w) = r else {
        return;
    };
    let k = w.at();
    words[k] = f(words[k]);
}

// So does the word of each register that the slots write, one by one; f makes no more of what it made.
// (Inlined always: a call of its own does not know what f goes by, and divides where f takes a remainder by a power of two.)
#[inline(always)]
pub fn change_written<F: Fn(u64) -> u64>(slots: &Slots, words: &mut [u64], f: F)
    requires few { length words.old ≤ absent }
    requires by_index { (s : ℕ) → s < 5 → (write_at (inst slots.now.recs.now slots.now.p) s ≡ absent → ⊥) → write_at (inst slots.now.recs.now slots.now.p) s < length words.old }
    requires can { F.IsAlwaysCallable f }
    ensures { (g : ℕ → ℕ) → Makes (F.post f) g → ((v : ℕ) → g (g v) ≡ g v) → Written g (inst slots.now.recs.now slots.now.p) words.old words.new }
{
    let n = slots.writers();
    for s in 0..n {
        change(words, slots.write(s, words.len()), &f);
    }
}
