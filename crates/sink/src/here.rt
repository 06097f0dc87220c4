// The call for a caller that lends no list of facts: the list is its own, of as many records as are asked for.
ghost use Rattle.std.specs.Prelude.{◌≡◌, ◌++◌, ◌*◌, ◌-◌, length, replicate};
ghost use Rattle.words.specs.Lists.{concat};
ghost use Rattle.model.specs.Refusal.{refusal, records};
ghost use Rattle.model.specs.Pass.{sink, number, values, rounds};
ghost use Rattle.checks.specs.Causes.{picture_of};
ghost use Rattle.sink.specs.Sink.{registers, operands};
ghost use Rattle.rounds.specs.Ended.{Work};
ghost use Rattle.oneround.specs.Kept.{Kept};

use crate::sink_all;
use facts::Fact;
use model::RECORDS;
use rounds::state::Ran;

// The call, with a line for each round, and what `sink_all` promises of it: its parameters, but for the list.
pub fn sink_here(
    bounds: &mut [u32],
    recs: &mut [u32],
    locs: &mut [u32],
    vias: &mut [u32],
    types: &mut [u32],
    regs: u32,
    ops: &mut [u32],
    opers: u32,
    pairs: &[u32],
    targets: &[u32],
    replay: &[u32],
    work64: &mut [u64],
    work32: &mut [u32],
) -> Ran
    ensures { let P = picture_of bounds.old recs.old locs.old vias.old types.old regs ops.old opers pairs.now targets.now replay.now in
        let o = sink P (length work64.old) (length work32.old) records in
        let cause = refusal P (length work64.old) (length work32.old) records in
        let Q = picture_of bounds.new recs.new locs.new vias.new types.new (registers result.answer) ops.new (operands result.answer) pairs.now targets.now replay.now in
        (result.answer ≡ o.answer)
        × (number result.answer ≡ number o.answer)
        × (values result.answer ≡ values o.answer)
        × (result.lines ≡ concat o.lines ++ replicate (48 - 6 * rounds result.answer) 0)
        × (bounds.new ≡ o.left.bounds)
        × (recs.new ≡ o.left.recs)
        × (locs.new ≡ o.left.locs)
        × (vias.new ≡ o.left.vias)
        × (types.new ≡ o.left.types)
        × (ops.new ≡ o.left.ops)
        × Work cause work64.old work32.old work64.new work32.new
        × (cause ≡ 0 → Kept P Q (rounds result.answer)) }
{
    let mut facts = [Fact::default(); RECORDS];
    sink_all(
        bounds, recs, locs, vias, types, regs, ops, opers, pairs, targets, replay, work64, work32,
        &mut facts,
    )
}
