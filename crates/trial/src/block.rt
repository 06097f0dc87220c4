// The move from a block along its chain (01, "A round"; 000's `try_block`): the facts, then the targets t, then f.
ghost use Rattle.std.specs.Prelude.{◌≡◌, ◌+◌, ◌*◌, ◌<◌, ◌≤◌, length, get_or};
ghost use Rattle.trial.specs.Trial.{toward_t, toward_f, found, Following, Followed};

use crate::learn::learn;
use crate::target::{Goal, try_target};
use apply::moves::Move;
use cfg::body::Body;
use chains::pass::Sink;
use facts::Fact;
use inst::index::BlockId;
use search::find::Look;
use worth::look::replays;

// What t is tried with, of n positions along the chain of k.
fn toward_t(bounds: &[u32], replay: &[u32], k: Look, n: usize) -> Goal
    requires { (2 * k.x.0 + 1 < length bounds.now) × (get_or bounds.now (2 * k.x.0) 0 < get_or bounds.now (2 * k.x.0 + 1) 0) }
    ensures { result ≡ toward_t bounds.now replay.now k n }
{
    Goal {
        into: k.c.t,
        other: k.c.f,
        least: Sink::minimum(replays(replay, k.c.t, k.c.f)),
        inside: k.x.past(bounds) - k.x.start(bounds) - 1,
        places: n,
    }
}

// What f is tried with: the branches change places, and none is wanted once some move into t.
fn toward_f(g: Goal, moved: u32) -> Goal
    ensures { result ≡ toward_f g moved }
{
    let least = if moved == 0 { g.least } else { 0 };
    Goal {
        into: g.other,
        other: g.into,
        least,
        ..g
    }
}

// So many members move from block x into a block.
fn move_into(x: BlockId, g: Goal, into: BlockId, moved: u32) -> Move
    ensures { result ≡ record { from = x; into = into; inside = g.inside; places = g.places; moved = moved } }
{
    Move {
        from: x,
        into,
        inside: g.inside,
        places: g.places,
        moved,
    }
}

// k members move from block x into t, or else l into f.
fn found(x: BlockId, g: Goal, k: u32, l: u32) -> Option<Move>
    ensures { result ≡ found x g k l }
{
    if 0 < k {
        return Some(move_into(x, g, g.into, k));
    }
    if 0 < l {
        return Some(move_into(x, g, g.other, l));
    }
    None
}

// The move from block k.x along its chain, which is worth a look. The facts along it are left in the list, marked for the target tried
// last.
pub fn try_chain(
    body: &Body<'_>,
    work64: &mut [u64],
    work32: &mut [u32],
    facts: &mut [Fact],
    k: Look,
) -> Option<Move>
    requires { Following body.now.func.bounds.now body.now.func.recs.now body.now.ops.now body.now.func.pairs.now body.now.func.targets.now body.now.replay.now body.now.sizes k.x.0 k.c work64.old work32.old × (800 ≤ length facts.old) }
    ensures { Followed body.now.func.bounds.now body.now.func.recs.now body.now.ops.now body.now.func.pairs.now body.now.func.targets.now body.now.replay.now body.now.sizes k.x.0 k.c work64.old work32.old work64.new work32.new result }
{
    let n = learn(body, work64, work32, facts, k.c);
    let g = toward_t(body.func.bounds, body.replay, k, n);
    let into_t = try_target(body, work64, work32, facts, k.c, g);
    let h = toward_f(g, into_t);
    let into_f = try_target(body, work64, work32, facts, k.c, h);
    found(k.x, g, into_t, into_f)
}
