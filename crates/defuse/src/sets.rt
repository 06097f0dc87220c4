// What a run of instructions reads before it writes it, and what it writes (01, "A round": "read before written"; in the Rust
// the first part of `liveness`), in two rows of bits. The instructions are taken from the last to the first: what one writes
// goes out of the row of reads, and what it reads goes in. On the way each writer is noted, so that rows and facts on registers take
// one pass over the records (request 2026-04). It goes slot by slot: with what each record reads and writes gathered first, by inst's
// `visit`, a call on a large function takes 1.46 times as many instructions (docs/SPEED.md).
ghost use Rattle.std.specs.Prelude.{◌≡◌, map, ◌-◌, ◌*◌, ◌≤◌, ◌<◌, length};
ghost use Rattle.words.specs.Lists.{range};
ghost use Rattle.model.specs.Picture.{inst, reads, writes};
ghost use Rattle.inst.specs.Index.{one, Low, Among};
ghost use Rattle.inst.specs.Record.{Known, Listed, rest_reads};
ghost use Rattle.defuse.specs.Sets.{put, wrote, before, run, InRow};
ghost use Rattle.defuse.specs.Coded.{Coded};
ghost use Rattle.defuse.specs.Writers.{note, notes};
ghost use Rattle.words.specs.Steps.{steps};

use crate::writers::note;
use inst::code::{Code, Slots};
use inst::index::Reg;
use words::bits::{set_in, unset_in};

// The two rows of a block: the words where what it reads first and what it writes begin, and of how many registers they are. (That both
// lie in the slice each function asks for itself: the slice is written, and no field can speak of what a `&mut` points at.)
#[derive(Clone, Copy, PartialEq, Eq, Debug)]
pub struct Pair {
    pub u: usize,
    pub d: usize,
    pub regs: usize,
}

// Register r, if it is one, is written by record p.
fn write_one(bits: &mut [u64], writers: &mut [u64], at: Pair, r: Option<Reg>, p: usize)
    requires { InRow at.u at.regs bits.old × InRow at.d at.regs bits.old × Among at.regs r × (p < 32768) }
    ensures bits { bits.new ≡ steps (wrote at.u at.d) bits.old (one r) }
    ensures writers { writers.new ≡ steps (note p) writers.old (one r) }
{
    let Some(k) = r else {
        return;
    };
    unset_in(bits, at.u, k.at());
    set_in(bits, at.d, k.at());
    note(writers, k, p);
}

// Register r, if it is one, is read.
fn read_one(bits: &mut [u64], at: Pair, r: Option<Reg>)
    requires { InRow at.u at.regs bits.old × Among at.regs r }
    ensures { bits.new ≡ steps (put at.u) bits.old (one r) }
{
    let Some(k) = r else {
        return;
    };
    set_in(bits, at.u, k.at());
}

// What a record writes in its slots.
fn write_slots(bits: &mut [u64], writers: &mut [u64], slots: &Slots<'_>, at: Pair)
    requires { InRow at.u at.regs bits.old × InRow at.d at.regs bits.old × Low at.regs (writes (inst slots.now.recs.now slots.now.p)) × (slots.now.p < 32768) }
    ensures bits { bits.new ≡ steps (wrote at.u at.d) bits.old (writes (inst slots.now.recs.now slots.now.p)) }
    ensures writers { writers.new ≡ steps (note slots.now.p) writers.old (writes (inst slots.now.recs.now slots.now.p)) }
{
    let n = slots.writers();
    for s in 0..n {
        write_one(bits, writers, at, slots.write(s, at.regs), slots.p);
    }
}

// What it reads in its slots.
fn read_slots(bits: &mut [u64], slots: &Slots<'_>, at: Pair)
    requires { InRow at.u at.regs bits.old × Low at.regs (rest_reads (inst slots.now.recs.now slots.now.p) 0) }
    ensures { bits.new ≡ steps (put at.u) bits.old (rest_reads (inst slots.now.recs.now slots.now.p) 0) }
{
    let n = slots.readers();
    for s in 0..n {
        read_one(bits, at, slots.read(s, at.regs));
    }
}

// What a list of operands reads.
fn read_list(bits: &mut [u64], xs: &[u32], at: Pair)
    requires { InRow at.u at.regs bits.old × Low at.regs xs.now }
    ensures { bits.new ≡ steps (put at.u) bits.old xs.now }
{
    for r in xs {
        read_one(bits, at, Reg::new(*r, at.regs));
    }
}

// Record p in front of those that the rows are of.
fn add_front(code: &Code<'_>, bits: &mut [u64], writers: &mut [u64], p: usize, at: Pair)
    requires { InRow at.u at.regs bits.old × InRow at.d at.regs bits.old × (p < 32768) × Known code.now.recs.now p × Listed code.now.recs.now code.now.ops.now p
        × Low at.regs (reads code.now.ops.now (inst code.now.recs.now p)) × Low at.regs (writes (inst code.now.recs.now p)) }
    ensures bits { bits.new ≡ before code.now.ops.now at.u at.d bits.old (inst code.now.recs.now p) }
    ensures writers { writers.new ≡ steps (note p) writers.old (writes (inst code.now.recs.now p)) }
{
    let slots = code.slots(p);
    write_slots(bits, writers, &slots, at);
    read_slots(bits, &slots, at);
    read_list(bits, code.list(p), at);
}

// The rows of the records from lo up to hi, and their writers, noted in as many words as there are. (`code` is taken by value: behind a
// reference its fields are loaded anew after each store.)
pub fn block_sets(
    code: Code<'_>,
    bits: &mut [u64],
    writers: &mut [u64],
    lo: usize,
    hi: usize,
    at: Pair,
)
    requires { InRow at.u at.regs bits.old × InRow at.d at.regs bits.old × (lo ≤ hi) × (hi ≤ 32768) × (16 * hi ≤ length code.recs.now) × Coded code at.regs }
    ensures bits { bits.new ≡ run code.entry.ops.now at.u at.d bits.old (map (inst code.entry.recs.now) (range lo (hi - lo))) }
    ensures writers { writers.new ≡ notes code.entry.recs.now writers.old (range lo (hi - lo)) }
{
    for p in (lo..hi).rev() {
        add_front(&code, bits, writers, p, at);
    }
}
