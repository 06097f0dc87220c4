// The search from one block of a picture as lent (01, "A round"), with what it leaves: the facts along the chain in the lent list, and of
// a move the chain's words.
ghost use Rattle.std.specs.Prelude.{◌≡◌, List, ℕ, ◌≤◌, length};
ghost use Rattle.checks.specs.Causes.{picture_of};
ghost use Rattle.acceptance.specs.Lent.{picture};
ghost use Rattle.probe.specs.Heads.{with_four};
ghost use Rattle.probe.specs.Attempt.{move_number, with_move, attempt, with_attempt, Left, Listed, Judges, Asking, Seen, Tried};

use acceptance::accept;
use acceptance::lent::Lent;
use apply::moves::Move;
use cfg::body::Body;
use cfg::graph::Func;
use facts::Fact;
use flow::live::live_in;
use inst::index::BlockId;
use inst::table::Table;
use search::begin::begin;
use search::find::{Look, look_from};
use sizes::{InUse, Room, Sizes};
use trial::block::try_chain;

// A block of an accepted picture, and the picture's sizes.
#[derive(Clone, Copy)]
pub struct Asked {
    pub block: BlockId,
    pub sizes: Sizes,
}

// Four words at the head of `out`, if it has four.
fn put_four(out: &mut [usize], a: usize, b: usize, c: usize, d: usize)
    ensures { out.new ≡ with_four out.old a b c d }
{
    if out.len() < 4 {
        return;
    }
    out[0] = a;
    out[1] = b;
    out[2] = c;
    out[3] = d;
}

// Is there a move, and which?
fn put_move(out: &mut [usize], r: Option<Move>) -> u32
    ensures { (result ≡ move_number r) × (out.new ≡ with_move out.old r) }
{
    let Some(mv) = r else {
        return 0;
    };
    let into = mv.into;
    put_four(out, into.at(), mv.inside, mv.places, mv.moved as usize);
    1
}

// Block x of an accepted picture; or the answer where the picture is refused, or x is no block of it.
fn judge(t: &Table, lent: Lent, room: Room, x: u32) -> Result<Asked, u32>
    ensures { (replay : List ℕ) → Judges (picture lent.entry replay) room x result }
{
    if let Err(cause) = accept(lent, room, t) {
        return Err(200 + cause.number());
    }
    let used = lent.used;
    let blocks = (lent.bounds.len() / 2) as u32;
    let Some(block) = BlockId::new(x, blocks) else {
        return Err(300);
    };
    let sizes = Sizes {
        blocks,
        insts: lent.locs.len(),
        regs: used.regs,
        lent: lent.types.len(),
        opers: used.opers,
    };
    Ok(Asked { block, sizes })
}

// The chain from block x, if it is worth a look; facts on registers, predecessors and live-in made for it.
fn seek(body: &Body<'_>, work64: &mut [u64], work32: &mut [u32], x: BlockId) -> Option<Look>
    requires { Asking body.now (length work64.old) (length work32.old) x.0 }
    ensures { Seen body.now work64.old work32.old work64.new work32.new x.0 result }
{
    let s = body.sizes;
    begin(&body.func, body.ops, work64, work32, s);
    live_in(work64, &body.func, s.regs as usize);
    look_from(body, work32, x)
}

// The move from block x, if there is one. The facts along its chain are left in the list.
fn try_block(
    body: &Body<'_>,
    work64: &mut [u64],
    work32: &mut [u32],
    facts: &mut [Fact],
    x: BlockId,
) -> Option<Move>
    requires { Asking body.now (length work64.old) (length work32.old) x.0 × (800 ≤ length facts.old) }
    ensures { Tried body.now work64.old work32.old work64.new work32.new x.0 result }
{
    let k = seek(body, work64, work32, x)?;
    try_chain(body, work64, work32, facts, k)
}

// 1 if block x has a move, 0 if not; 200 and the number of a refusal; 300 where x is no block. Of a move, at the head of `out`, if it
// has four words: the target, the positions in x but for its last, those of the chain, the members. The chain's facts are then the first
// of `facts`, one a position, and its words the first 8,000 of `work32`, ten a position (docs/DESIGN.md).
pub fn virdzeba_try<'a>(
    bounds: &'a [u32],
    recs: &'a [u32],
    locs: &'a [u32],
    vias: &'a [u32],
    types: &'a [u32],
    registers: u32,
    ops: &'a [u32],
    operands: u32,
    pairs: &'a [u32],
    targets: &'a [u32],
    replay: &'a [u32],
    work64: &mut [u64],
    work32: &mut [u32],
    facts: &mut [Fact],
    x: u32,
    out: &mut [usize],
) -> u32
    ensures { let P = picture_of bounds.now recs.now locs.now vias.now types.now registers ops.now operands pairs.now targets.now replay.now in
        let n64 = length work64.old in
        let n32 = length work32.old in
        let lent = length facts.old in
        (result ≡ attempt P n64 n32 lent x) × (out.new ≡ with_attempt out.old P n64 n32 lent x) × Left P x lent work64.old work32.old work64.new work32.new × Listed P x n64 n32 facts.old facts.new }
{
    let t = Table::new();
    let lent = Lent {
        bounds,
        recs,
        locs,
        vias,
        types,
        ops,
        pairs,
        targets,
        used: InUse {
            regs: registers,
            opers: operands,
        },
    };
    let room = Room {
        w64: work64.len(),
        w32: work32.len(),
        records: facts.len(),
    };
    let asked = match judge(&t, lent, room, x) {
        Ok(asked) => asked,
        Err(number) => return number,
    };
    let func = Func {
        table: &t,
        bounds,
        recs,
        pairs,
        targets,
    };
    let body = Body {
        func,
        ops,
        replay,
        sizes: asked.sizes,
    };
    let r = try_block(&body, work64, work32, facts, asked.block);
    put_move(out, r)
}
