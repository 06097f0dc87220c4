// Every member's turn, in order (01, "The move"). Of the work words of a position its mark, its last use and the register that it
// writes are read, and its new register is written.
ghost use Rattle.std.specs.Prelude.{◌≡◌, ◌+◌, ◌*◌, ◌≤◌, ◌<◌, length};
ghost use Rattle.pool.specs.Pool.{Ready, Positioned, Allots, in_pool};

use crate::held::Pool;
use crate::turn::Member;
use inst::index::Reg;
use model::ABSENT;
use position::{DEF, LAST, MARK, NEW, PLACE};

// Position p's turn, if it is marked. Its new register is noted.
fn position(w: &mut [u32], pool: &mut Pool, m: usize, p: usize, r: u32, types: &[u32])
    requires { Ready r m types.now w.old × (p < m) × (in_pool pool.old ≤ p) × (pool.old.next ≤ r + 2 * p) }
    ensures { Positioned p types.now w.old w.new pool.old pool.new }
{
    let b = PLACE * p;
    if w[b + MARK] == 0 {
        w[b + NEW] = ABSENT;
        return;
    }
    let m = Member {
        at: p as u32,
        until: w[b + LAST],
        def: Reg::new(w[b + DEF], r as usize),
    };
    w[b + NEW] = pool.turn(m, types).unwrap_or(ABSENT);
}

// The new registers of the members among the first m positions, where r registers are in use. Returns how many are in use then.
pub fn allot(w: &mut [u32], m: usize, r: u32, types: &[u32]) -> u32
    requires { Ready r m types.now w.old }
    ensures { Allots r m types.now w.old w.new result }
{
    let mut pool = Pool::new(r);
    for p in 0..m {
        position(w, &mut pool, m, p, r, types);
    }
    pool.next
}
