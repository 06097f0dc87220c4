// A turn (01, "The legal set"): a sweep backward, which makes the notes, then one forward, which goes by them.
ghost use Rattle.std.specs.Prelude.{◌≡◌, ◌≤◌};
ghost use Rattle.legalset.specs.Marks.{members};
ghost use Rattle.plan.specs.Sweep.{marks, Sweepable};
ghost use Rattle.plan.specs.Turn.{went, goes_on, Turn, Turned};

use crate::sweep::{Span, backward, forward};
use facts::Fact;
use legality::forward::Given;
use summary::notes::Lasts;

// What is asked: what the sweeps are over, and how many members are wanted; with fewer than `least` left no more sweeps are made.
#[derive(Clone, Copy, Debug, PartialEq, Eq)]
pub struct Asked {
    pub span: Span,
    pub least: u32,
}

// What the last sweep did: it dropped a member, or there was none yet; it dropped nothing; nor did the one before.
#[derive(Clone, Copy, PartialEq, Eq, Debug)]
pub enum Last {
    Dropped,
    Quiet,
    Done,
}

// Where the sweeps stand: so many members are left.
#[derive(Clone, Copy, PartialEq, Eq, Debug)]
pub struct Sweeps {
    pub left: u32,
    pub last: Last,
}

// After a sweep that dropped `count`.
pub fn went(c: Sweeps, count: u32) -> Sweeps
    requires { count ≤ c.left }
    ensures { result ≡ went c count }
{
    let left = c.left - count;
    if count != 0 {
        return Sweeps {
            left,
            last: Last::Dropped,
        };
    }
    let last = match c.last {
        Last::Dropped => Last::Quiet,
        _ => Last::Done,
    };
    Sweeps { left, last }
}

// Is another sweep to be made? Not after two that dropped nothing, nor where too few are left.
pub fn goes_on(c: Sweeps, least: u32) -> bool
    ensures { result ≡ goes_on c least }
{
    !matches!(c.last, Last::Done) & (least <= c.left)
}

// The words of the registers are cleared; then the notes are made by the sweep backward, and needed no more after the sweep forward.
pub fn turn(given: &Given<'_>, work: &mut [u64], facts: &mut [Fact], z: Asked, c: Sweeps) -> Sweeps
    requires { Sweepable given.now.code.recs.now given.now.code.ops.now given.now.regs.now work.old facts.old z.span × (c.left ≡ members (marks z.span.n facts.old)) × (z.span.m ≤ z.span.n) }
    ensures passed { Turn given.now.code.recs.now given.now.code.ops.now given.now.regs.now z work.old facts.old c work.new facts.new result }
    ensures swept { Turned given.now.code.recs.now given.now.code.ops.now given.now.regs.now z work.old facts.old c work.new facts.new result }
{
    let s = z.span.s;
    let e = s + given.regs.len();
    work[s..e].fill(0);
    let mut lasts = Lasts::none();
    let dropped = backward(given, work, &mut lasts, facts, z.span);
    let half = went(c, dropped);
    if !goes_on(half, z.least) {
        return half;
    }
    let more = forward(given, work, &mut lasts, facts, z.span);
    went(half, more)
}
