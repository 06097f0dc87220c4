// The positions that are members: those whose mark is not 0.
ghost use Rattle.std.specs.Prelude.{◌≡◌, ◌*◌, ◌≤◌, length};
ghost use Rattle.words.specs.Lists.{upto, filter};
ghost use Rattle.mover.specs.Order.{goes};

use position::{MARK, PLACE};

// How many of the first m positions of the chain are members.
pub fn count(chain: &[u32], m: usize) -> u32
    requires { (10 * m ≤ length chain.now) × (m ≤ 800) }
    ensures { result ≡ length (filter (goes chain.now) (upto m)) }
{
    (0..m).filter(|p| chain[PLACE * *p + MARK] != 0).count() as u32
}
