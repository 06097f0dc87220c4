// Rule 1, from behind (01, "The legal set": whoever reads a member's value in the chain is in the set): a register is awaited where a
// kept position reads it further on with no write in between, and a member that writes such a one is dropped. What is kept is noted on
// the way: whether a position is, is settled once the sweep has been there.
ghost use Rattle.std.specs.Prelude.{◌≡◌, ◌&&◌, ℕ, ◌<◌, leb, length, get_or};
ghost use Rattle.words.specs.Lists.{all};
ghost use Rattle.model.specs.Picture.{inst, reads, writes};
ghost use Rattle.summary.specs.Passes.{kept_word, Awaited, Backed, Written, Readable, Small};

use crate::known::back_known;
use crate::rules::rule1;
use facts::Fact;
use inst::code::Code;
use summary::notes::Lasts;
use summary::stamps::{Stamp, put_reads, put_writes};

// q and 1, if q is kept.
pub fn kept_at(member: bool, q: usize) -> u64
    requires { q < 800 }
    ensures { result ≡ kept_word member q }
{
    if member {
        return 0;
    }
    q as u64 + 1
}

// The step at position q, of fact f, by its record.
fn back_looked(code: &Code, f: Fact, st: &mut [u64], lasts: &mut Lasts, q: usize) -> bool
    requires { Written code.now.recs.now (length st.old) f.rec f.def f.more × Readable code.now.recs.now code.now.ops.now (length st.old) f × Small f × (q < 800) }
    ensures { Backed code.now.recs.now code.now.ops.now f q st.old lasts.old st.new lasts.new result }
{
    let stays = f.member && rule1(code, f, st);
    lasts.note(f, stays, q);
    put_writes(code, f, st, Stamp::kept(kept_at(stays, q)));
    if !stays {
        put_reads(code, f, st, Stamp::awaited());
    }
    stays
}

// Position q, of fact f: dropped if it is a member that writes what is awaited. Says whether it is in the set. Whether the fact has all is
// asked once: of most positions it has, and then the loop of a sweep holds nothing that only a record needs.
pub fn back(code: &Code, f: Fact, st: &mut [u64], lasts: &mut Lasts, q: usize) -> bool
    requires { Written code.now.recs.now (length st.old) f.rec f.def f.more × Readable code.now.recs.now code.now.ops.now (length st.old) f × Small f × (q < 800) }
    ensures { Backed code.now.recs.now code.now.ops.now f q st.old lasts.old st.new lasts.new result }
{
    if f.more {
        return back_looked(code, f, st, lasts, q);
    }
    back_known(f, st, lasts, q)
}
