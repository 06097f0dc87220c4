// The whole call over slices and a lent list of facts, for pictures past the program's sizes (01, "The call").
ghost use Rattle.std.specs.Prelude.{◌≡◌, ◌≤◌, length};
ghost use Rattle.model.specs.Refusal.{refusal};
ghost use Rattle.model.specs.Pass.{sink, number};
ghost use Rattle.checks.specs.Causes.{picture_of};
ghost use Rattle.rounds.specs.Ended.{Work};
ghost use Rattle.sink.specs.Sink.{Lent};
ghost use Rattle.probe.specs.Heads.{with_two, with_used, Told};

use facts::Fact;
use model::Answer;
use sink::sink_all;

// Two words at the head of `out`, if it has two.
fn put_two(out: &mut [u32], a: u32, b: u32)
    ensures { out.new ≡ with_two out.old a b }
{
    if out.len() < 2 {
        return;
    }
    out[0] = a;
    out[1] = b;
}

// The number that the host is given for an answer, and the counts in use that it gives.
fn tell(out: &mut [u32], answer: Answer) -> u32
    requires { number answer ≤ 300 }
    ensures { (result ≡ number answer) × (out.new ≡ with_used out.old answer) }
{
    match answer {
        Answer::Done(u) | Answer::Short(u) => put_two(out, u.registers, u.operands),
        Answer::Refused(_) => {}
    }
    answer.number()
}

// The number of the answer as the host is given it. At the head of `out`, if it has two words, the registers and operands then in
// use; a refusal leaves it as it was.
pub fn virdzeba_sink_all(
    bounds: &mut [u32],
    recs: &mut [u32],
    locs: &mut [u32],
    vias: &mut [u32],
    types: &mut [u32],
    registers: u32,
    ops: &mut [u32],
    operands: u32,
    pairs: &[u32],
    targets: &[u32],
    replay: &[u32],
    work64: &mut [u64],
    work32: &mut [u32],
    facts: &mut [Fact],
    out: &mut [u32],
) -> u32
    ensures { let P = picture_of bounds.old recs.old locs.old vias.old types.old registers ops.old operands pairs.now targets.now replay.now in
        let o = sink P (length work64.old) (length work32.old) (length facts.old) in
        let cause = refusal P (length work64.old) (length work32.old) (length facts.old) in
        Told o result bounds.new recs.new locs.new vias.new types.new ops.new out.old out.new
        × Work cause work64.old work32.old work64.new work32.new
        × Lent cause facts.old facts.new }
{
    let ran = sink_all(
        bounds, recs, locs, vias, types, registers, ops, operands, pairs, targets, replay, work64,
        work32, facts,
    );
    tell(out, ran.answer)
}
