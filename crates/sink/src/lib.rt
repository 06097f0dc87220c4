// The call (01, "The call" and "A round"; 000's `sink_all`): `sink_all` over lent slices of any contents.
#![tactic(auto)]

pub mod here; // here.rt: the call with a list of facts of its own

ghost use Rattle.std.specs.Prelude.{◌≡◌, ◌++◌, ◌*◌, ◌-◌, length, replicate};
ghost use Rattle.words.specs.Lists.{concat};
ghost use Rattle.model.specs.Refusal.{refusal};
ghost use Rattle.model.specs.Pass.{sink, number, values, rounds};
ghost use Rattle.checks.specs.Causes.{picture_of};
ghost use Rattle.sink.specs.Sink.{Lent, Coming, Finished, registers, operands};
ghost use Rattle.rounds.specs.Ended.{Work};
ghost use Rattle.oneround.specs.Kept.{Kept};

use acceptance::lent;
use facts::Fact;
use inst::table::Table;
use oneround::round::{Fixed, round};
use rounds::start::start;
use rounds::state::{At, Ran, advance};
use sizes::InUse;
use std::ops::ControlFlow;

// Round after round, until none is to be tried. (The slices that are written stay apart, as in `round`.)
fn run(
    fixed: &Fixed<'_>,
    bounds: &mut [u32],
    recs: &mut [u32],
    locs: &mut [u32],
    vias: &mut [u32],
    types: &mut [u32],
    ops: &mut [u32],
    work64: &mut [u64],
    work32: &mut [u32],
    facts: &mut [Fact],
    m: At,
) -> Ran
    requires { let P = picture_of bounds.old recs.old locs.old vias.old types.old m.sizes.regs ops.old m.sizes.opers fixed.now.pairs.now fixed.now.targets.now fixed.now.replay.now in
        Coming P m work64.old work32.old (length facts.old) }
    ensures { let P = picture_of bounds.old recs.old locs.old vias.old types.old m.sizes.regs ops.old m.sizes.opers fixed.now.pairs.now fixed.now.targets.now fixed.now.replay.now in
        Finished P m work64.old work32.old facts.old result.answer result.lines bounds.new recs.new locs.new vias.new types.new ops.new work64.new work32.new facts.new }
{
    let mut m = m;
    // It ends by what a round comes to, and not by a count.
    loop {
        let r = round(
            fixed, bounds, recs, locs, vias, types, ops, work64, work32, facts, m.sizes,
        );
        match advance(m, r) {
            ControlFlow::Continue(next) => m = next,
            ControlFlow::Break(ran) => return ran,
        }
    }
}

// The call, with a line for each round. Of its promise: the picture lent, the outcome for it, the cause for which it is refused (or 0)
// and the picture left, each named once; then the answer, by its number and its values too, the lines, the six slices, the work
// slices, the list, and demand 3. (Its parameters are the library's interface, which callers outside rely on.)
pub fn sink_all(
    bounds: &mut [u32],
    recs: &mut [u32],
    locs: &mut [u32],
    vias: &mut [u32],
    types: &mut [u32],
    regs: u32,
    ops: &mut [u32],
    opers: u32,
    pairs: &[u32],
    targets: &[u32],
    replay: &[u32],
    work64: &mut [u64],
    work32: &mut [u32],
    facts: &mut [Fact],
) -> Ran
    ensures { let P = picture_of bounds.old recs.old locs.old vias.old types.old regs ops.old opers pairs.now targets.now replay.now in
        let o = sink P (length work64.old) (length work32.old) (length facts.old) in
        let cause = refusal P (length work64.old) (length work32.old) (length facts.old) in
        let Q = picture_of bounds.new recs.new locs.new vias.new types.new (registers result.answer) ops.new (operands result.answer) pairs.now targets.now replay.now in
        (result.answer ≡ o.answer)
        × (number result.answer ≡ number o.answer)
        × (values result.answer ≡ values o.answer)
        × (result.lines ≡ concat o.lines ++ replicate (48 - 6 * rounds result.answer) 0)
        × (bounds.new ≡ o.left.bounds)
        × (recs.new ≡ o.left.recs)
        × (locs.new ≡ o.left.locs)
        × (vias.new ≡ o.left.vias)
        × (types.new ≡ o.left.types)
        × (ops.new ≡ o.left.ops)
        × Work cause work64.old work32.old work64.new work32.new
        × Lent cause facts.old facts.new
        × (cause ≡ 0 → Kept P Q (rounds result.answer)) }
{
    let t = Table::new();
    let lent = lent::Lent {
        bounds,
        recs,
        locs,
        vias,
        types,
        ops,
        pairs,
        targets,
        used: InUse { regs, opers },
    };
    let fixed = Fixed {
        table: &t,
        pairs,
        targets,
        replay,
    };
    match start(&t, lent, work64, work32, facts.len()) {
        ControlFlow::Continue(sizes) => run(
            &fixed,
            bounds,
            recs,
            locs,
            vias,
            types,
            ops,
            work64,
            work32,
            facts,
            At::first(sizes),
        ),
        ControlFlow::Break(answer) => Ran {
            answer,
            lines: [0u32; 48],
        },
    }
}
