// A sweep over a chain's facts (01, "The legal set"): the start, which marks the positions to begin with, that backward, which drops
// members by rule 1, and that forward, which drops them by rules 3 to 6. Each fact is looked at once, by value, and its mark is written.
ghost use Rattle.std.specs.Prelude.{◌≡◌, ◌&&◌, ◌+◌, ◌<◌, ◌≤◌, ltb, length};
ghost use Rattle.summary.specs.Passes.{begin_test, Backed, Forwarded, Around, Near, Written, Readable, Small};
ghost use Rattle.summary.specs.declared.notes.Lasts.{Lasts};
ghost use Rattle.plan.specs.Sweep.{part, Sweepable, from_first, from_last, VisitStart, VisitBack, VisitForth, Swept, Begun, Backward, Forward};

use facts::Fact;
use legality::backward::back;
use legality::forward::{Given, forth};
use legality::rules::Elsewhere;
use legality::start::begins_in;
use summary::notes::Lasts;

// What all sweeps are over: the row of registers needed elsewhere begins at word `o` of the work, the words of the registers at `s`; `n`
// positions, of which the first `m` are in x.
#[derive(Clone, Copy, Debug, PartialEq, Eq)]
pub struct Span {
    pub o: usize,
    pub s: usize,
    pub m: usize,
    pub n: usize,
}

// Does position p, of fact f, begin in the set?
fn starts(given: &Given<'_>, f: Fact, work: &[u64], span: Span, p: usize) -> bool
    requires { Written given.now.code.recs.now (length given.now.regs.now) f.rec f.def f.more × (p < 800) × (span.o ≤ length work.now) }
    ensures { result ≡ (ltb p span.m && begin_test given.now.code.recs.now given.now.regs.now work.now f span.o p) }
{
    let asked = Elsewhere {
        regs: given.regs,
        bits: work,
        at: span.o,
    };
    p < span.m && begins_in(&given.code, f, &asked, p)
}

// The step backward, over the words of the work from s on.
fn back_in(
    given: &Given<'_>,
    f: Fact,
    work: &mut [u64],
    s: usize,
    lasts: &mut Lasts,
    p: usize,
) -> bool
    requires { Written given.now.code.recs.now (length given.now.regs.now) f.rec f.def f.more × Readable given.now.code.recs.now given.now.code.ops.now (length given.now.regs.now) f × Small f × (p < 800) × (s + length given.now.regs.now ≤ length work.old) }
    ensures { Backed given.now.code.recs.now given.now.code.ops.now f p (part s (length given.now.regs.now) work.old) lasts.old (part s (length given.now.regs.now) work.new) lasts.new result × Around s (length given.now.regs.now) work.old work.new }
{
    let e = s + given.regs.len();
    back(&given.code, f, &mut work[s..e], lasts, p)
}

// The step forward, likewise.
fn forth_in(
    given: &Given<'_>,
    f: Fact,
    work: &mut [u64],
    s: usize,
    lasts: &mut Lasts,
    p: usize,
) -> bool
    requires { Written given.now.code.recs.now (length given.now.regs.now) f.rec f.def f.more × Readable given.now.code.recs.now given.now.code.ops.now (length given.now.regs.now) f × Small f × Near (part s (length given.now.regs.now) work.old) × (p < 800) × (s + length given.now.regs.now ≤ length work.old) }
    ensures { Forwarded given.now.code.recs.now given.now.code.ops.now given.now.regs.now f p (part s (length given.now.regs.now) work.old) lasts.old (part s (length given.now.regs.now) work.new) lasts.new result × Around s (length given.now.regs.now) work.old work.new }
{
    let e = s + given.regs.len();
    forth(given, f, &mut work[s..e], lasts, p)
}

// All positions are marked: those that begin in the set. Says how many do.
pub fn begin(given: &Given<'_>, work: &[u64], facts: &mut [Fact], span: Span) -> u32
    requires { Sweepable given.now.code.recs.now given.now.code.ops.now given.now.regs.now work.now facts.old span }
    ensures begun { Begun given.now.code.recs.now given.now.regs.now work.now span facts.old span.n facts.new result }
    ensures swept { (ls : Lasts) → Swept (VisitStart given.now.code.recs.now given.now.regs.now span) from_first work.now ls facts.old span.n work.now ls facts.new result }
{
    let mut count = 0;
    for p in 0..span.n {
        let f = facts[p];
        let begins = starts(given, f, work, span, p);
        facts[p].member = begins;
        count += u32::from(begins);
    }
    count
}

// From the last position back: members that break rule 1 are dropped. Says how many.
pub fn backward(
    given: &Given<'_>,
    work: &mut [u64],
    lasts: &mut Lasts,
    facts: &mut [Fact],
    span: Span,
) -> u32
    requires { Sweepable given.now.code.recs.now given.now.code.ops.now given.now.regs.now work.old facts.old span }
    ensures passed { Backward given.now.code.recs.now given.now.code.ops.now given.now.regs.now span work.old lasts.old facts.old work.new lasts.new facts.new result }
    ensures swept { Swept (VisitBack given.now.code.recs.now given.now.code.ops.now given.now.regs.now span) (from_last span.n) work.old lasts.old facts.old span.n work.new lasts.new facts.new result }
{
    let mut count = 0;
    for p in (0..span.n).rev() {
        let f = facts[p];
        let stays = back_in(given, f, work, span.s, lasts, p);
        facts[p].member = stays;
        count += u32::from(f.member & !stays);
    }
    count
}

// From the first position forth, over those in x: members that break one of rules 3 to 6 are dropped. Says how many.
pub fn forward(
    given: &Given<'_>,
    work: &mut [u64],
    lasts: &mut Lasts,
    facts: &mut [Fact],
    span: Span,
) -> u32
    requires { Sweepable given.now.code.recs.now given.now.code.ops.now given.now.regs.now work.old facts.old span × Near (part span.s (length given.now.regs.now) work.old) × (span.m ≤ span.n) }
    ensures passed { Forward given.now.code.recs.now given.now.code.ops.now given.now.regs.now span work.old lasts.old facts.old work.new lasts.new facts.new result }
    ensures swept { Swept (VisitForth given.now.code.recs.now given.now.code.ops.now given.now.regs.now span) from_first work.old lasts.old facts.old span.m work.new lasts.new facts.new result }
{
    let mut count = 0;
    for p in 0..span.m {
        let f = facts[p];
        let keeps = forth_in(given, f, work, span.s, lasts, p);
        facts[p].member = keeps;
        count += u32::from(f.member & !keeps);
    }
    count
}
