// One target tried (01, "A round" and "The legal set"; 000's `plan`): is it a target, and has the greatest legal set enough members?
ghost use Rattle.std.specs.Prelude.{◌≡◌, ◌≤◌, length};
ghost use Rattle.facts.specs.Marks.{bare};
ghost use Rattle.trial.specs.Target.{taken, Aiming, Aimed, Trying, TargetTried};

use apply::moves::Move;
use cfg::body::Body;
use chains::chain::Chain;
use chainwords::marks::{put_facts, put_uses};
use facts::Fact;
use flow::grid::Grid;
use flow::needed::put_needed;
use inst::code::Code;
use inst::index::BlockId;
use plan::set::legal_set;
use plan::sweep::Span;
use plan::turn::Asked;
use sizes::{COPIED, at_preds, at_stamps};
use words::bits::width;

// What one target is tried with: the block that members are to move into, and the other branch; the fewest members that a move has, or
// 0 where none is wanted; the positions in the first block, but for its last, and all positions of the chain.
#[derive(Clone, Copy)]
pub struct Goal {
    pub into: BlockId,
    pub other: BlockId,
    pub least: u32,
    pub inside: usize,
    pub places: usize,
}

// How the set is sought: the fewest members that move, or 0 where there is nothing to do; where the copied words of the registers end;
// what is asked of the sweeps.
#[derive(Clone, Copy)]
pub struct Aim {
    pub least: u32,
    pub end: usize,
    pub asked: Asked,
}

// How many members move, and of how many positions the words are written.
#[derive(Clone, Copy)]
pub struct Sunk {
    pub moved: u32,
    pub places: usize,
}

// Is g.into a target, and is a move wanted? Then the row of the registers needed elsewhere is put; else the sweeps are over no positions
// and no registers.
fn take_aim(body: &Body<'_>, work64: &mut [u64], work32: &[u32], c: Chain, g: Goal) -> Aim
    requires { Aiming body.now.func.bounds.now body.now.func.recs.now body.now.func.pairs.now body.now.func.targets.now body.now.sizes c work64.old work32.now g }
    ensures { Aimed body.now.func.bounds.now body.now.func.recs.now body.now.func.pairs.now body.now.func.targets.now body.now.sizes c work64.old work32.now g work64.new result }
{
    let grid = Grid {
        blocks: body.sizes.blocks,
        width: width(body.sizes.regs as usize),
    };
    let o = grid.needed();
    let s = at_stamps(body.sizes);
    let k = at_preds(body.sizes);
    let wanted = (g.least != 0) & c.is_target(&work32[k..], g.into);
    if !wanted {
        return Aim {
            least: 0,
            end: COPIED,
            asked: Asked {
                span: Span { o, s, m: 0, n: 0 },
                least: 1,
            },
        };
    }
    put_needed(&body.func, work64, grid.width, g.into, g.other);
    Aim {
        least: g.least,
        end: COPIED + body.sizes.regs as usize,
        asked: Asked {
            span: Span {
                o,
                s,
                m: g.inside,
                n: g.places,
            },
            least: g.least,
        },
    }
}

// Of a set of k members all move, or none where there is nothing to do or they are too few.
fn taken(k: u32, least: u32, n: usize) -> Sunk
    ensures { result ≡ taken k least n }
{
    if (least == 0) | (k < least) {
        return Sunk {
            moved: 0,
            places: 0,
        };
    }
    Sunk {
        moved: k,
        places: n,
    }
}

// How many members move into g.into: 0 where that is no target, none is wanted or there are too few. The chain's words then say which,
// with their last uses and the registers they write.
pub fn try_target(
    body: &Body<'_>,
    work64: &mut [u64],
    work32: &mut [u32],
    facts: &mut [Fact],
    c: Chain,
    g: Goal,
) -> u32
    requires { Trying body.now.func.bounds.now body.now.func.recs.now body.now.ops.now body.now.func.pairs.now body.now.func.targets.now body.now.sizes c (bare facts.old) work64.old work32.old g × (g.places ≤ length facts.old) }
    ensures { TargetTried body.now.func.bounds.now body.now.func.recs.now body.now.ops.now body.now.func.pairs.now body.now.func.targets.now body.now.sizes c (bare facts.old) work64.old work32.old g work64.new work32.new result × (bare facts.new ≡ bare facts.old) }
{
    let a = take_aim(body, work64, work32, c, g);
    let e = a.end;
    let code = Code {
        table: body.func.table,
        recs: body.func.recs,
        ops: body.ops,
    };
    let k = legal_set(&code, &work32[COPIED..e], work64, facts, a.asked);
    let b = taken(k, a.least, g.places);
    put_facts(facts, work32, b.places);
    let mv = Move {
        from: c.nth(0),
        into: g.into,
        inside: g.inside,
        places: g.places,
        moved: b.moved,
    };
    put_uses(body, work64, work32, c, mv);
    b.moved
}
