// The move of a round (01, "A round": "the first block, in number order, of more than 3 instructions for which a move exists"): chain
// after chain is tried until one has a move or none is left. Nothing that is lent as a picture is changed.
#![tactic(auto)]

ghost use Rattle.std.specs.Prelude.{◌≡◌, ◌≤◌, length};
ghost use Rattle.find.specs.Find.{Finding, Searched};

use apply::moves::Move;
use cfg::body::Body;
use facts::Fact;
use search::find::{first_look, seek};
use trial::block::try_chain;

// The move of the round, if there is one. The words of its chain then stand for it, and the list holds the facts along that chain.
pub fn find_move(
    body: &Body<'_>,
    work64: &mut [u64],
    work32: &mut [u32],
    facts: &mut [Fact],
) -> Option<Move>
    requires { Finding body.now.func.bounds.now body.now.func.recs.now body.now.ops.now body.now.func.pairs.now body.now.func.targets.now body.now.replay.now body.now.sizes work64.old work32.old × (800 ≤ length facts.old) }
    ensures { Searched body.now.func.bounds.now body.now.func.recs.now body.now.ops.now body.now.func.pairs.now body.now.func.targets.now body.now.replay.now body.now.sizes work64.old work32.old work64.new work32.new result }
{
    // It ends by what is found: the next chain is sought behind the one that was tried.
    let mut look = first_look(body, work64, work32);
    while let Some(k) = look {
        if let Some(mv) = try_chain(body, work64, work32, facts, k) {
            return Some(mv);
        }
        look = seek(body, work32, k.x.number() + 1);
    }
    None
}
