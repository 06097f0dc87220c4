// The search for the next chain to be tried (01, "A round": "the first block, in number order, of more than 3 instructions for which a
// move exists"): blocks that have no chain, or none that is worth a look, have no move. Nothing that is lent as a picture is changed.
ghost use Rattle.std.specs.Prelude.{◌≡◌, ◌≤◌, ◌<◌};
ghost use Rattle.search.specs.Search.{Looking, Seeking, Looked, Sought, Opened};

use cfg::body::Body;
use chains::chain::{Chain, find_chain};
use chains::pass::Sink;
use flow::live::live_in;
use inst::index::BlockId;
use sizes::at_preds;
use worth::look::worth_a_look;

// A block and the chain from it, which is worth a look.
#[derive(Clone, Copy)]
pub struct Look {
    pub x: BlockId,
    pub c: Chain,
}

// The chain from block x, if it is worth a look.
pub fn look_from(body: &Body<'_>, work32: &[u32], x: BlockId) -> Option<Look>
    requires { Seeking body.now.func.bounds.now body.now.func.recs.now body.now.replay.now body.now.sizes work32.now × (x.0 < body.now.sizes.blocks) }
    ensures { Looked body.now.func.bounds.now body.now.func.recs.now body.now.replay.now body.now.sizes work32.now x.0 result }
{
    let table = body.func.table;
    let bounds = body.func.bounds;
    let recs = body.func.recs;
    let size = x.past(bounds) - x.start(bounds);
    if size <= Sink::MIN_REPLAY as usize {
        return None;
    }
    let p = at_preds(body.sizes);
    let Some(c) = find_chain(table, bounds, recs, &work32[p..], x, body.sizes.blocks) else {
        return None;
    };
    if !worth_a_look(bounds, recs, body.replay, c, x) {
        return None;
    }
    Some(Look { x, c })
}

// The first such block in number order, from block `from` on.
pub fn seek(body: &Body<'_>, work32: &[u32], from: u32) -> Option<Look>
    requires { Seeking body.now.func.bounds.now body.now.func.recs.now body.now.replay.now body.now.sizes work32.now × (from ≤ body.now.sizes.blocks) }
    ensures { Sought body.now.func.bounds.now body.now.func.recs.now body.now.replay.now body.now.sizes work32.now from result }
{
    // `find_map` over the range would say so in a line, but what it answers is not proved.
    for b in from..body.sizes.blocks {
        let x = BlockId::known(b, body.sizes.blocks);
        if let Some(k) = look_from(body, work32, x) {
            return Some(k);
        }
    }
    None
}

// A round's first: live-in anew, then the search from block 0 on.
pub fn first_look(body: &Body<'_>, work64: &mut [u64], work32: &[u32]) -> Option<Look>
    requires { Looking body.now.func.bounds.now body.now.func.recs.now body.now.func.pairs.now body.now.func.targets.now body.now.replay.now body.now.sizes work64.old work32.now }
    ensures { Opened body.now.func.bounds.now body.now.func.recs.now body.now.func.pairs.now body.now.func.targets.now body.now.replay.now body.now.sizes work64.old work32.now work64.new result }
{
    live_in(work64, &body.func, body.sizes.regs as usize);
    seek(body, work32, 0)
}
