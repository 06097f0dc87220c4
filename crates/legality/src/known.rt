// The step of the sweep backward by the fact alone, for a position whose fact has all that it reads and writes (`backward` has the
// sweep's rule).
ghost use Rattle.std.specs.Prelude.{◌≡◌, false, ◌&&◌, List, ℕ, ◌<◌, ◌≤◌, leb, length, get_or};
ghost use Rattle.words.specs.Lists.{all};
ghost use Rattle.summary.specs.Passes.{Awaited, Backed, Written, Readable, Small, own_def, own_uses};

use crate::backward::kept_at;
use crate::rules::def_free;
use facts::Fact;
use summary::notes::Lasts;
use summary::stamps::{Stamp, put_def, put_uses};

// The step at position q, of fact f, whatever the records of which f has all.
pub fn back_known(f: Fact, st: &mut [u64], lasts: &mut Lasts, q: usize) -> bool
    requires { (length st.old ≤ 65536) × Small f × (q < 800) }
    ensures { (recs ops : List ℕ) → Written recs (length st.old) f.rec f.def f.more → Readable recs ops (length st.old) f → f.more ≡ false → Backed recs ops f q st.old lasts.old st.new lasts.new result }
{
    let stays = f.member && def_free(f, st);
    lasts.note(f, stays, q);
    put_def(f, st, Stamp::kept(kept_at(stays, q)));
    if !stays {
        put_uses(f, st, Stamp::awaited());
    }
    stays
}
