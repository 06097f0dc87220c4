// One round by itself (01, "A round"): its move found, weighed, and made if it fits. The facts on registers are those that the work
// slices hold, so that a round can follow on another call's.
ghost use Rattle.std.specs.Prelude.{◌≡◌, ◌≤◌, length};
ghost use Rattle.checks.specs.Causes.{picture_of};
ghost use Rattle.oneround.specs.Round.{Open, Stepped};
ghost use Rattle.oneround.specs.Kept.{registers_then, operands_then, StepKept};

use crate::make::make;
use crate::weigh::{Step, weigh};
use cfg::body::Body;
use cfg::graph::Func;
use facts::Fact;
use find::find_move;
use inst::table::Table;
use sizes::Sizes;

// What no round of a call changes: the table of roles, the case tables, and the blocks that are run again.
#[derive(Clone, Copy)]
pub struct Fixed<'a> {
    pub table: &'a Table,
    pub pairs: &'a [u32],
    pub targets: &'a [u32],
    pub replay: &'a [u32],
}

// The slices that are written stay apart: a struct of `&mut` slices cannot be lent on twice.
pub fn round(
    fixed: &Fixed<'_>,
    bounds: &mut [u32],
    recs: &mut [u32],
    locs: &mut [u32],
    vias: &mut [u32],
    types: &mut [u32],
    ops: &mut [u32],
    work64: &mut [u64],
    work32: &mut [u32],
    facts: &mut [Fact],
    s: Sizes,
) -> Step
    requires { let P = picture_of bounds.old recs.old locs.old vias.old types.old s.regs ops.old s.opers fixed.now.pairs.now fixed.now.targets.now fixed.now.replay.now in
        Open P s work64.old work32.old × (800 ≤ length facts.old) }
    ensures { let P = picture_of bounds.old recs.old locs.old vias.old types.old s.regs ops.old s.opers fixed.now.pairs.now fixed.now.targets.now fixed.now.replay.now in
        let Q = picture_of bounds.new recs.new locs.new vias.new types.new (registers_then result s.regs) ops.new (operands_then result s.opers) fixed.now.pairs.now fixed.now.targets.now fixed.now.replay.now in
        Stepped P work64.old work32.old result bounds.new recs.new locs.new vias.new types.new ops.new work64.new work32.new
        × StepKept P work64.old work32.old result Q }
{
    let func = Func {
        table: fixed.table,
        bounds,
        recs,
        pairs: fixed.pairs,
        targets: fixed.targets,
    };
    let body = Body {
        func,
        ops,
        replay: fixed.replay,
        sizes: s,
    };
    let found = find_move(&body, work64, work32, facts);
    let r = weigh(&body, types, work64, work32, found);
    make(
        fixed.table,
        bounds,
        recs,
        locs,
        vias,
        types,
        ops,
        work64,
        work32,
        s,
        r,
    );
    r
}
