// The fact of one position of a chain (01, "The legal set"), and what it leaves in the words of the registers that it writes. It
// looks at no other position's fact: the words of registers have what it asks.
ghost use Rattle.std.specs.Prelude.{◌≡◌, ◌+◌, ◌<◌};
ghost use Rattle.model.specs.Picture.{inst};
ghost use Rattle.model.specs.Analyse.{may_suspend};
ghost use Rattle.inst.specs.Record.{Within};
ghost use Rattle.analyse.specs.State.{Ranged};
ghost use Rattle.analyse.specs.Step.{more, fact_of, Learnable, Learned};

use crate::judge::{ask, judge};
use crate::marks::{mark_record, stamp};
use effects::arms::{Arm, Effect};
use facts::Fact;
use inst::code::Code;
use inst::kinds::{CALL, CALL_INDIRECT, CALL_PROT, SUSPEND};
use inst::record::Record;
use inst::scanned::Firsts;
use model::ABSENT;

// May record g suspend?
fn may_suspend(recs: &[u32], g: usize) -> bool
    requires { Within recs.now g }
    ensures { result ≡ may_suspend (inst recs.now g) }
{
    let rec = Record { recs, p: g };
    let k = rec.kind();
    let f = rec.form();
    (k == SUSPEND) | (k == CALL_INDIRECT) | (((k == CALL) | (k == CALL_PROT)) & (f == 1))
}

// Are there more registers than one written and two read?
fn more(x: Firsts) -> bool
    ensures { result ≡ more x }
{
    (x.d1 != ABSENT) | (x.r2 != ABSENT)
}

// Record g's fact: its effect, whether it may suspend, and what it writes and reads.
fn fact_of(g: usize, e: Effect, suspends: bool, x: Firsts) -> Fact
    requires { g < 32768 }
    ensures { result ≡ fact_of g e suspends x }
{
    Fact {
        rec: g as u32,
        class: e.class.number(),
        org: e.org,
        wrote: e.wrote,
        from: e.from,
        def: x.d0,
        use0: x.r0,
        use1: x.r1,
        more: more(x),
        len: e.len,
        layout: e.layout,
        creates: e.creates,
        barrier: e.barrier,
        suspends,
        member: false,
    }
}

// Position p: record g.
pub fn learn_one(code: &Code, regs: &mut [u64], g: usize, p: u32, count: usize) -> Fact
    requires { Ranged count p regs.old × Learnable code.now.recs.now code.now.ops.now count g × (p + 1 < 1000) }
    ensures { Learned code.now.recs.now code.now.ops.now regs.old regs.new p count g result }
{
    let slots = code.slots(g);
    let x = code.scan(&slots);
    let m = code.row(g);
    let y = ask(code.recs, regs, x, g, p, count);
    let e = judge(code.recs, g, m, y);
    let d = stamp(p, e.org, e.len, Arm::of(m).leads(y.reads, e));
    mark_record(&slots, regs, x, d);
    fact_of(g, e, may_suspend(code.recs, g), x)
}
