// The registers that are free (01, "The move": "reused, last freed first, once its last reader is before the present member"): which of
// those held become so, and the search from the top for one of a type.
ghost use Rattle.std.specs.Prelude.{◌≡◌, ◌+◌, ◌≤◌, ◌++◌, ◌<◌, ◌%◌, ℕ, IfSome, IfNone, length, get_or};
ghost use Rattle.std.specs.List.{remove};
ghost use Rattle.arrayvec.specs.ArrayVec.{array_vec_len};
ghost use Rattle.words.specs.Lists.{filter};
ghost use Rattle.pool.specs.Pool.{past};

use crate::held::{Pool, UNTIL};
use arrayvec::ArrayVec;
use model::RECORDS;
use words::copy::slide;

// Does the last reader of a held word stand before p?
fn past(w: u32, p: u32) -> bool
    ensures { result ≡ past p w }
{
    w / UNTIL < p
}

// Those held whose last reader is before p go behind those that are free.
fn free_past(held: &[u32], free: &mut ArrayVec<u32, RECORDS>, p: u32)
    requires { length held.now + length free.old.items ≤ 800 }
    ensures { free.new.items ≡ free.old.items ++ filter (past p) held.now }
{
    for w in held {
        if past(*w, p) {
            free.push(*w);
        }
    }
}

// A free word's type.
fn type_of(w: u32) -> u32
    ensures { result ≡ w % 1048576 % 8 }
{
    w % UNTIL % 8
}

// The place of the last of the words that is of type ty.
fn last_of(words: &[u32], ty: u32) -> Option<usize>
    ensures none { IfNone result ((k : ℕ) → k < length words.now → get_or words.now k 0 % 1048576 % 8 ≡ ty → ⊥) }
    ensures some { IfSome result (λ i. (i < length words.now) × (get_or words.now i 0 % 1048576 % 8 ≡ ty)) }
    ensures above { IfSome result (λ i. (k : ℕ) → i < k → k < length words.now → get_or words.now k 0 % 1048576 % 8 ≡ ty → ⊥) }
{
    words.iter().rposition(|w| type_of(*w) == ty)
}

// The word at a place is taken out, and those behind it close up. (As the kit's `remove` does, but that calls C's memmove, for which the
// archive for C does not ask.)
pub(crate) fn take_out(words: &mut ArrayVec<u32, RECORDS>, at: usize) -> u32
    requires { at < array_vec_len words.old }
    ensures value { result ≡ get_or words.old.items at result }
    ensures items { words.new.items ≡ remove words.old.items at }
    ensures len { array_vec_len words.new + 1 ≡ array_vec_len words.old }
{
    let w = words.as_slice()[at];
    let n = words.len();
    slide(words.as_mut_slice(), at + 1, at, n - (at + 1));
    words.truncate(n - 1);
    w
}

impl Pool {
    ghost use Rattle.pool.specs.Pool.{Released, Top};

    // Those held whose last reader is before p become free ("once its last reader is before the present member"). Where there are none,
    // those held are not looked at again.
    pub fn release(&mut self, p: u32)
        ensures { Released p self.old self.new }
    {
        let before = self.free.len();
        free_past(self.held.as_slice(), &mut self.free, p);
        if before < self.free.len() {
            self.held.retain(|w| !past(*w, p));
        }
    }

    // The place of the topmost free word of type ty.
    pub fn find(&self, ty: u32) -> Option<usize>
        ensures { Top ty self.now result }
    {
        last_of(self.free.as_slice(), ty)
    }
}
