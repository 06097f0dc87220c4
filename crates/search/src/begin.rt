// Before the first round (01, "A round"): facts on registers, of all that are lent, and the predecessors of each block. Both stand
// for the whole call: a new register has no facts, and a round changes no block's successors. The rows of what each block reads
// first and writes stand until a round changes its code. Rows and facts come of one pass over the instructions (request 2026-04).
ghost use Rattle.std.specs.Prelude.{◌≡◌};
ghost use Rattle.search.specs.Search.{Beginning, Began};

use cfg::graph::Func;
use cfg::preds::find_preds;
use flow::rows::all_rows;
use inst::code::Code;
use regfacts::flags::find_facts;
use sizes::{Sizes, at_preds, at_regs};

pub fn begin(func: &Func<'_>, ops: &[u32], work64: &mut [u64], work32: &mut [u32], s: Sizes)
    requires { Beginning func.now.bounds.now func.now.recs.now ops.now func.now.pairs.now func.now.targets.now work64.old work32.old s }
    ensures { Began func.now.bounds.now func.now.recs.now ops.now func.now.pairs.now func.now.targets.now work64.old work32.old s work64.new work32.new }
{
    let code = Code {
        table: func.table,
        recs: func.recs,
        ops,
    };
    let b = func.bounds.len() / 2;
    let a = at_regs(s);
    let p = at_preds(s);
    let (rows, rest) = work64.split_at_mut(a);
    let words = &mut rest[..s.lent];
    words.fill(0);
    all_rows(rows, words, &code, func.bounds, s.regs as usize);
    find_facts(func.recs, words, s.insts);
    find_preds(&mut work32[p..p + 2 * b], func);
}
