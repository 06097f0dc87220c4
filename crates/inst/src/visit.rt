// What a record reads and writes, gathered in one visit (request 2026-04): what it reads in order of slots, then where its list begins and
// how long it is, and what it writes in order of slots.
ghost use Rattle.std.specs.Prelude.{◌≡◌, ◌++◌, ◌+◌, ◌≤◌, length, take, drop};
ghost use Rattle.model.specs.Picture.{inst, reads, writes};
ghost use Rattle.inst.specs.Index.{Low};
ghost use Rattle.inst.specs.Record.{word, Known, Listed, rest_reads};
ghost use Rattle.inst.specs.Regs.{numbers};

use crate::code::{Code, Slots};
use crate::record::Record;
use crate::regs::Regs;

// What the slots read; where in the operands the list begins that is read after them, and how long it is; and what the slots write. (No
// kind writes in more than three slots.)
#[derive(Clone, Copy)]
pub struct Visit {
    pub reads: Regs<5>,
    pub start: usize,
    pub len: usize,
    pub writes: Regs<3>,
}

// What the slots read, of `count` registers.
fn gather_reads(slots: &Slots<'_>, count: usize) -> Regs<5>
    requires { Low count (rest_reads (inst slots.now.recs.now slots.now.p) 0) }
    ensures { numbers result ≡ rest_reads (inst slots.now.recs.now slots.now.p) 0 }
{
    let mut regs = Regs::new();
    let n = slots.readers();
    for s in 0..n {
        regs = regs.with(slots.read(s, count));
    }
    regs
}

// What the slots write, of `count` registers. (Beside the one above: each is its own definition.)
fn gather_writes(slots: &Slots<'_>, count: usize) -> Regs<3>
    requires { Low count (writes (inst slots.now.recs.now slots.now.p)) }
    ensures { numbers result ≡ writes (inst slots.now.recs.now slots.now.p) }
{
    let mut regs = Regs::new();
    let n = slots.writers();
    for s in 0..n {
        regs = regs.with(slots.write(s, count));
    }
    regs
}

impl Code<'_> {
    // Record p, of `count` registers: what it reads in its slots, where its list begins and how long it is, and what it writes.
    pub fn visit(&self, p: usize, count: usize) -> Visit
        requires known { Known self.now.recs.now p }
        requires listed { Listed self.now.recs.now self.now.ops.now p }
        requires read { Low count (reads self.now.ops.now (inst self.now.recs.now p)) }
        requires written { Low count (writes (inst self.now.recs.now p)) }
        ensures reads { numbers result.reads ++ take result.len (drop result.start self.now.ops.now) ≡ reads self.now.ops.now (inst self.now.recs.now p) }
        ensures slots { numbers result.reads ≡ rest_reads (inst self.now.recs.now p) 0 }
        ensures place { (result.start ≡ word self.now.recs.now p 7) × (result.len ≡ word self.now.recs.now p 8) }
        ensures within { result.start + result.len ≤ length self.now.ops.now }
        ensures writes { numbers result.writes ≡ writes (inst self.now.recs.now p) }
    {
        let slots = self.slots(p);
        let rec = Record { recs: self.recs, p };
        Visit {
            reads: gather_reads(&slots, count),
            start: rec.list_start(),
            len: rec.list_len(),
            writes: gather_writes(&slots, count),
        }
    }
}

impl Visit {
    // The operands in its list.
    pub fn list<'a>(&self, ops: &'a [u32]) -> &'a [u32]
        requires { self.now.start + self.now.len ≤ length ops.now }
        ensures { result.now ≡ take self.now.len (drop self.now.start ops.now) }
    {
        &ops[self.start..self.start + self.len]
    }
}
