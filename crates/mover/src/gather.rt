// The members of the block that they leave are saved, in order, and the records that stay close up (01, "The move"). A record
// has w words. A position of that block is a member if its mark is not 0.
ghost use Rattle.std.specs.Prelude.{◌≡◌, ◌+◌, ◌*◌, ◌≤◌, ◌<◌, length};
ghost use Rattle.mover.specs.Order.{One, Gathered};

use crate::records::Records;
use position::{MARK, PLACE};
use words::copy::{copy, slide};

// A record at word e: if it is one that goes it is saved, else it goes down by the s words that were saved before. Returns the words
// saved.
fn take_one(xs: &mut [u32], saved: &mut [u32], goes: bool, e: usize, s: usize, w: usize) -> usize
    requires { (e + w ≤ length xs.old) × (s + w ≤ length saved.old) × (s ≤ e) }
    ensures { One w goes e s xs.old xs.new saved.old saved.new result }
{
    if goes {
        copy(xs, e, w, saved, s);
        return w;
    }
    slide(xs, e, e - s, w);
    0
}

// The marked ones of the records are saved, and the others go down. Returns the words saved: a number beside the array, which the
// places after need as well; a slice of it would keep the array lent and be asked for its length. (An `ArrayVec` would write blanks
// over what it held for each segment, and takes a record only by `try_extend_from_slice`, whose refusal had to be met each time.)
pub fn gather(xs: &mut [u32], saved: &mut [u32], chain: &[u32], r: Records) -> usize
    requires { (r.w * (r.lo + r.m) ≤ length xs.old) × (r.w * r.m ≤ length saved.old) × (10 * r.m ≤ length chain.now) }
    ensures { Gathered r.w chain.now r.lo xs.old xs.new saved.old saved.new r.m result }
{
    let mut s = 0;
    for p in 0..r.m {
        let e = r.w * r.lo + r.w * p;
        s += take_one(xs, saved, chain[PLACE * p + MARK] != 0, e, s, r.w);
    }
    s
}
