// The sweep that drops what breaks one of rules 3 to 6 against the summary of a set (01, "The legal set").
ghost use Rattle.std.specs.Prelude.{◌≡◌, not, ◌&&◌, ◌*◌, ◌<◌, length};
ghost use Rattle.summary.specs.Passes.{fact_word, stay_test, Near, Forwarded, Written, Readable, Small};

use crate::kept::{Kept, rule3, rule4, rule6};
use facts::Fact;
use inst::code::Code;
use summary::notes::Lasts;
use summary::stamps::{MEMBER_AT, ORIGIN, Stamp, WRITER, put_writes};

// What a sweep looks at and does not change: the records, and a word for each register in use, with what was known of it before round 1
// and its last writer.
#[derive(Clone, Copy)]
pub struct Given<'a> {
    pub code: Code<'a>,
    pub regs: &'a [u32],
}

// What is stamped of a member, beside its origin.
const IN_SET: u64 = WRITER + MEMBER_AT;

// A member that keeps rules 3 to 6, the cheap ones first.
fn may_stay(code: &Code, f: Fact, kept: &Kept, p: usize) -> bool
    requires { Readable code.now.recs.now code.now.ops.now (length kept.now.st.now) f × Small f × (p < 800) }
    ensures { result ≡ (f.member && stay_test code.now.recs.now code.now.ops.now kept.now.regs.now kept.now.st.now kept.now.lasts.now.writes f kept.now.lasts.now.suspension kept.now.lasts.now.barrier p) }
{
    f.member
        && rule4(kept.lasts, p)
        && rule6(kept.lasts, f)
        && kept.rule5(code, f, p)
        && rule3(code, f, kept.st, p)
}

// What is stamped of a position where it writes: whether it is in the set, and its origin.
fn stamp_of(f: Fact, member: bool) -> u64
    requires { f.org < 2004 }
    ensures { result ≡ 2048 * fact_word f member }
{
    let o = ORIGIN * u64::from(f.org);
    if member {
        return o + IN_SET;
    }
    o + WRITER
}

// Position p, of fact f: dropped if it is a member that breaks one of rules 3 to 6. Its writes are noted. Says whether it is in the set.
pub fn forth(given: &Given<'_>, f: Fact, st: &mut [u64], lasts: &mut Lasts, p: usize) -> bool
    requires { Written given.now.code.recs.now (length st.old) f.rec f.def f.more × Readable given.now.code.recs.now given.now.code.ops.now (length st.old) f × Small f × Near st.old × (length given.now.regs.now ≡ length st.old) × (p < 800) }
    ensures { Forwarded given.now.code.recs.now given.now.code.ops.now given.now.regs.now f p st.old lasts.old st.new lasts.new result }
{
    let kept = Kept {
        regs: given.regs,
        st,
        lasts,
    };
    let stays = may_stay(&given.code, f, &kept, p);
    if f.member & !stays {
        lasts.forget(p);
    }
    let d = Stamp {
        keep: WRITER,
        lo: 0,
        v: stamp_of(f, stays),
    };
    put_writes(&given.code, f, st, d);
    stays
}
