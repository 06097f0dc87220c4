// Before the first round (01, "The call"): refusals and gates; then facts on registers, predecessors and rows.
ghost use Rattle.std.specs.Prelude.{◌≡◌, List, ℕ};
ghost use Rattle.acceptance.specs.Lent.{picture};
ghost use Rattle.rounds.specs.Going.{Started};

use crate::judge::judge;
use acceptance::lent::Lent;
use cfg::graph::Func;
use inst::table::Table;
use model::Answer;
use search::begin::begin;
use sizes::{Room, Sizes};
use std::ops::ControlFlow;

// Breaks with the answer, where no round is tried; else the sizes of what is lent.
pub fn start(
    t: &Table,
    lent: Lent,
    work64: &mut [u64],
    work32: &mut [u32],
    records: usize,
) -> ControlFlow<Answer, Sizes>
    ensures { (replay : List ℕ) → Started (picture lent.entry replay) work64.old work32.old records result work64.new work32.new }
{
    let used = lent.used;
    let room = Room {
        w64: work64.len(),
        w32: work32.len(),
        records,
    };
    judge(t, lent, room)?;
    let s = Sizes {
        blocks: (lent.bounds.len() / 2) as u32,
        insts: lent.locs.len(),
        regs: used.regs,
        lent: lent.types.len(),
        opers: used.opers,
    };
    let func = Func {
        table: t,
        bounds: lent.bounds,
        recs: lent.recs,
        pairs: lent.pairs,
        targets: lent.targets,
    };
    begin(&func, lent.ops, work64, work32, s);
    ControlFlow::Continue(s)
}
