// The registers that a new one may be taken from (01, "The move"). A held register is one word, until × 2^20 + register × 8 + type,
// and a free one keeps that word: a turn passes over all that are held, so they stay one word each.
ghost use Rattle.std.specs.Prelude.{◌≡◌, ◌+◌, ◌≤◌, [], length};

use arrayvec::ArrayVec;
use model::RECORDS;

// Where the last reader stands in a word, over register and type.
pub const UNTIL: u32 = 1048576;

// The pool: the registers held, in order, and those free, last freed last; `next` was never given. No more are in it than a chain has
// positions.
#[derive(Drop)]
pub struct Pool {
    pub held: ArrayVec<u32, RECORDS>,
    pub free: ArrayVec<u32, RECORDS>,
    pub next: u32,
    ghost few: { length held.items + length free.items ≤ 800 },
}

impl Pool {
    // Nothing is held or free, and `next` is the first to be given.
    pub fn new(next: u32) -> Pool
        ensures { (result.held.items ≡ []) × (result.free.items ≡ []) × (result.next ≡ next) }
    {
        Pool {
            held: ArrayVec::new(),
            free: ArrayVec::new(),
            next,
        }
    }
}
