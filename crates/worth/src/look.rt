// What a chain must have to be looked at (01, "A round": "x without its terminator needs 8 instructions (3 if t or f is in replay);
// the chain, inner Brs dropped, may have 800; without replay x needs a Cat of form 0").
ghost use Rattle.std.specs.Prelude.{◌≡◌, ◌||◌, ◌*◌, ◌≤◌, length};
ghost use Rattle.words.specs.Lists.{mem};
ghost use Rattle.chains.specs.Places.{Pair, Laid, end_past};
ghost use Rattle.worth.specs.Worth.{Worth};

use acceptance::gates::plain_cat_in;
use chains::chain::Chain;
use chains::pass::Sink;
use chains::places::chain_len;
use inst::index::BlockId;

// Is t or f in replay?
pub fn replays(replay: &[u32], t: BlockId, f: BlockId) -> bool
    ensures { result ≡ (mem t.0 replay.now || mem f.0 replay.now) }
{
    replay.contains(&t.number()) | replay.contains(&f.number())
}

// Is the chain c from block x to be looked at?
pub fn worth_a_look(bounds: &[u32], recs: &[u32], replay: &[u32], c: Chain, x: BlockId) -> bool
    requires { Laid bounds.now c × Pair bounds.now x.0 × (16 * end_past bounds.now x.0 ≤ length recs.now) }
    ensures { Worth bounds.now recs.now replay.now c x.0 result }
{
    let again = replays(replay, c.t, c.f);
    let a = x.start(bounds);
    let e = x.past(bounds);
    if e - a <= Sink::minimum(again) as usize {
        return false;
    }
    if (Sink::MAX_SEQ as usize) < chain_len(bounds, c) {
        return false;
    }
    if again {
        return true;
    }
    plain_cat_in(recs, a, e - 1)
}
