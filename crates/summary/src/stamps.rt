// A word a register, in a lent slice: the registers that a position writes, or reads, are stamped. Its fact says which they are where
// it has all, else its record does. (The slice is the caller's work, so what is stamped of a register stays packed in its word.)
ghost use Rattle.std.specs.Prelude.{◌≡◌, ◌≤◌, length, map};
ghost use Rattle.model.specs.Picture.{inst, reads, writes};
ghost use Rattle.inst.specs.Index.{word_of, Among, Low};
ghost use Rattle.inst.specs.declared.index.Reg.{Reg as RegAt};
ghost use Rattle.regfacts.specs.Written.{Fits, Good};
ghost use Rattle.summary.specs.Passes.{over, put_in, Stamped, Beside, Written, Readable, own_def, own_uses};

use facts::Fact;
use inst::code::{Code, Slots};
use inst::index::Reg;
use inst::written::{change, change_written};

// While the set is found, a register's word has its last kept writer and 1, and AWAITED if it is awaited. Of its last writer so far it
// has WRITER, MEMBER_AT beside it if that is in the set, and over both its origin.
pub const AWAITED: u64 = 1024;

pub const WRITER: u64 = 2048;

pub const MEMBER_AT: u64 = 4096;

pub const ORIGIN: u64 = 8192;

// The number v; what stood there below `keep`, or `lo` if that is more, stays beside it.
#[derive(Clone, Copy, Debug, PartialEq, Eq)]
pub struct Stamp {
    pub keep: u64,
    pub lo: u64,
    pub v: u64,
    ghost beside: { Beside keep lo v },
}

impl Stamp {
    // The last kept writer is lo, a position and 1, if that is later; the register is no longer awaited.
    pub fn kept(lo: u64) -> Stamp
        requires { lo ≤ 800 }
        ensures { (result.keep ≡ 1024) × (result.lo ≡ lo) × (result.v ≡ 0) }
    {
        Stamp {
            keep: AWAITED,
            lo,
            v: 0,
        }
    }

    // The register is awaited.
    pub fn awaited() -> Stamp
        ensures { (result.keep ≡ 1024) × (result.lo ≡ 0) × (result.v ≡ 1024) }
    {
        Stamp {
            keep: AWAITED,
            lo: 0,
            v: AWAITED,
        }
    }

    // The word x when it is stamped.
    #[tactic(auto, unfolding(crate::specs::Passes::over))]
    fn over(self, x: u64) -> u64
        ensures { result ≡ over self.keep self.lo self.v x }
    {
        (x % self.keep).max(self.lo) + self.v
    }
}

// Stamps register r, if it is one.
fn put(st: &mut [u64], r: Option<Reg>, d: Stamp)
    requires { Among (length st.old) r }
    ensures { st.new ≡ put_in d.keep d.lo d.v (word_of r) st.old }
{
    change(st, r, |x| d.over(x));
}

// Stamps what a record writes.
fn put_slots(slots: &Slots, st: &mut [u64], d: Stamp)
    requires { Fits slots.now.recs.now (length st.old) slots.now.p }
    ensures { Stamped (writes (inst slots.now.recs.now slots.now.p)) d.keep d.lo d.v st.old st.new }
{
    change_written(slots, st, |x| d.over(x));
}

// Stamps the register that fact f has as written.
pub fn put_def(f: Fact, st: &mut [u64], d: Stamp)
    requires { length st.old ≤ 65536 }
    ensures { Stamped (own_def (length st.old) f) d.keep d.lo d.v st.old st.new }
{
    put(st, Reg::new(f.def, st.len()), d);
}

// Stamps what the position of fact f writes.
pub fn put_writes(code: &Code, f: Fact, st: &mut [u64], d: Stamp)
    requires { Written code.now.recs.now (length st.old) f.rec f.def f.more }
    ensures { Stamped (writes (inst code.now.recs.now f.rec)) d.keep d.lo d.v st.old st.new }
{
    if !f.more {
        put_def(f, st, d);
        return;
    }
    put_slots(&code.slots(f.rec as usize), st, d);
}

// Stamps these registers.
pub fn put_regs(regs: &[Reg], st: &mut [u64], d: Stamp)
    requires { Low (length st.old) (map (λ (r : RegAt). r.0) regs.now) }
    ensures { Stamped (map (λ (r : RegAt). r.0) regs.now) d.keep d.lo d.v st.old st.new }
{
    for r in regs {
        put(st, Some(*r), d);
    }
}

// Stamps those of a list.
fn put_list(list: &[u32], st: &mut [u64], d: Stamp)
    requires { Low (length st.old) list.now }
    ensures { Stamped list.now d.keep d.lo d.v st.old st.new }
{
    for r in list {
        put(st, Reg::new(*r, st.len()), d);
    }
}

// Stamps what record g reads: in its slots, then in its list.
fn put_places(code: &Code, g: usize, st: &mut [u64], d: Stamp)
    requires { Good code.now.recs.now code.now.ops.now (length st.old) g }
    ensures { Stamped (reads code.now.ops.now (inst code.now.recs.now g)) d.keep d.lo d.v st.old st.new }
{
    let v = code.visit(g, st.len());
    put_regs(v.reads.as_slice(), st, d);
    put_list(v.list(code.ops), st, d);
}

// Stamps the registers that fact f has as read.
pub fn put_uses(f: Fact, st: &mut [u64], d: Stamp)
    requires { length st.old ≤ 65536 }
    ensures { Stamped (own_uses (length st.old) f) d.keep d.lo d.v st.old st.new }
{
    put(st, Reg::new(f.use0, st.len()), d);
    put(st, Reg::new(f.use1, st.len()), d);
}

// Stamps what the position of fact f reads.
pub fn put_reads(code: &Code, f: Fact, st: &mut [u64], d: Stamp)
    requires { Readable code.now.recs.now code.now.ops.now (length st.old) f }
    ensures { Stamped (reads code.now.ops.now (inst code.now.recs.now f.rec)) d.keep d.lo d.v st.old st.new }
{
    if !f.more {
        put_uses(f, st, d);
        return;
    }
    put_places(code, f.rec as usize, st, d);
}
