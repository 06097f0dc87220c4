// The rules that a member keeps (01, "The legal set"), a function each: the first two here, the others in kept.rt. `st` holds a word a
// register: below AWAITED its last kept writer, AWAITED if it is awaited, from WRITER on what is asked of its last writer, of `backward`
// and `forward`. Rules 1 to 3 ask of the fact where it has all that the position writes and reads, else of the record.
ghost use Rattle.std.specs.Prelude.{◌≡◌, ◌||◌, ◌<◌, ◌≤◌, length, get_or, eqb, leb};
ghost use Rattle.words.specs.Lists.{all};
ghost use Rattle.model.specs.Picture.{inst, absent, writes};
ghost use Rattle.inst.specs.Index.{word_of, Among};
ghost use Rattle.regfacts.specs.Written.{Fits};
ghost use Rattle.summary.specs.Passes.{result_test, Written, own_def};

use facts::Fact;
use inst::code::{Code, Slots};
use inst::index::Reg;
use regfacts::flags;
use summary::reads::all_written;
use summary::stamps::AWAITED;

// The greatest word of a register that is not awaited.
const NOT_AWAITED: u64 = AWAITED - 1;

// As in regfacts.
const FLAGS: u32 = flags::FLAGS as u32;

// What rule 2 asks: a word for each register in use, with its last writer, and the row of the registers needed elsewhere, which begins
// at word `at` of `bits`.
#[derive(Clone, Copy)]
pub struct Elsewhere<'a> {
    pub regs: &'a [u32],
    pub bits: &'a [u64],
    pub at: usize,
}

// Is register r, if it is one, not awaited?
fn free(st: &[u64], r: Option<Reg>) -> bool
    requires { Among (length st.now) r }
    ensures { result ≡ (eqb (word_of r) absent || leb (get_or st.now (word_of r) 0) 1023) }
{
    let Some(k) = r else {
        return true;
    };
    st[k.at()] <= NOT_AWAITED
}

// Rule 1 for the register that fact f has as written.
pub fn def_free(f: Fact, st: &[u64]) -> bool
    requires { length st.now ≤ 65536 }
    ensures { result ≡ all (λ x. leb (get_or st.now x 0) 1023) (own_def (length st.now) f) }
{
    free(st, Reg::new(f.def, st.len()))
}

// Rule 1: nothing that the position of fact f writes is awaited, that is, read further on by a kept position with no write in between.
pub fn rule1(code: &Code, f: Fact, st: &[u64]) -> bool
    requires { Written code.now.recs.now (length st.now) f.rec f.def f.more }
    ensures { result ≡ all (λ x. leb (get_or st.now x 0) 1023) (writes (inst code.now.recs.now f.rec)) }
{
    if !f.more {
        return def_free(f, st);
    }
    all_written(&code.slots(f.rec as usize), st.len(), |r| free(st, r))
}

// Rule 2 for register r, if it is one: p does not write it last in the chain, or it is not needed elsewhere.
fn unneeded(asked: &Elsewhere<'_>, r: Option<Reg>, p: usize) -> bool
    requires { Among (length asked.now.regs.now) r × (p < 800) × (asked.now.at ≤ length asked.now.bits.now) }
    ensures { result ≡ (eqb (word_of r) absent || result_test asked.now.regs.now asked.now.bits.now asked.now.at p (word_of r)) }
{
    let Some(w) = r else {
        return true;
    };
    let k = w.at();
    !(words::bits::bit_in(asked.bits, asked.at, k) & (asked.regs[k] / FLAGS == p as u32 + 1))
}

// Rule 2 for what a record, at p, writes, slot by slot. (Inlined always: the loop of a sweep then keeps what it asks in registers.)
#[inline(always)]
pub fn unneeded_slots(slots: &Slots, asked: &Elsewhere<'_>, p: usize) -> bool
    requires { Fits slots.now.recs.now (length asked.now.regs.now) slots.now.p × (p < 800) × (asked.now.at ≤ length asked.now.bits.now) }
    ensures { result ≡ all (result_test asked.now.regs.now asked.now.bits.now asked.now.at p) (writes (inst slots.now.recs.now slots.now.p)) }
{
    all_written(slots, asked.regs.len(), |r| unneeded(asked, r, p))
}

// Rule 2: no register needed elsewhere is written at p and by none after it.
pub fn rule2(code: &Code, f: Fact, asked: &Elsewhere<'_>, p: usize) -> bool
    requires { Written code.now.recs.now (length asked.now.regs.now) f.rec f.def f.more × (p < 800) × (asked.now.at ≤ length asked.now.bits.now) }
    ensures { result ≡ all (result_test asked.now.regs.now asked.now.bits.now asked.now.at p) (writes (inst code.now.recs.now f.rec)) }
{
    if !f.more {
        return unneeded(asked, Reg::new(f.def, asked.regs.len()), p);
    }
    unneeded_slots(&code.slots(f.rec as usize), asked, p)
}
