// The move of a round, made (01, "The move"), and the rows of the blocks that it changed.
ghost use Rattle.std.specs.Prelude.{◌≡◌};
ghost use Rattle.words.specs.Bits.{width};
ghost use Rattle.oneround.specs.Make.{Renewing, Renewed, Making, Made};

use crate::weigh::{Line, Step};
use apply::apply;
use apply::needs::Counts;
use flow::rows::{all_rows, block_rows};
use inst::code::Code;
use inst::table::Table;
use model::CHAIN_WORDS;
use sizes::{Sizes, at_stamps};
use words::bits::width;

// After move l, the rows of its two blocks anew; all rows, where those of the registers in use are wider than with `was` registers.
fn renew(code: &Code, bounds: &[u32], work64: &mut [u64], was: u32, l: Line)
    requires { Renewing bounds.now code.now.recs.now code.now.ops.now work64.old was l.registers l.moved.from.0 l.moved.into.0 }
    ensures { Renewed bounds.now code.now.recs.now code.now.ops.now work64.old (width was) (width l.registers) l.moved.from.0 l.moved.into.0 work64.new }
{
    let mv = l.moved;
    let k = l.registers as usize;
    if width(k) != width(was as usize) {
        all_rows(work64, &mut [], code, bounds, k);
        return;
    }
    block_rows(work64, &mut [], code, bounds, k, mv.from);
    block_rows(work64, &mut [], code, bounds, k, mv.into);
}

// The round's move, if it fits. (The slices that are written stay apart, as in `round`.)
pub fn make(
    t: &Table,
    bounds: &mut [u32],
    recs: &mut [u32],
    locs: &mut [u32],
    vias: &mut [u32],
    types: &mut [u32],
    ops: &mut [u32],
    work64: &mut [u64],
    work32: &[u32],
    s: Sizes,
    q: Step,
)
    requires { Making bounds.old recs.old locs.old vias.old types.old ops.old s work64.old work32.now q }
    ensures { Made bounds.old recs.old locs.old vias.old types.old ops.old s work64.old work32.now q bounds.new recs.new locs.new vias.new types.new ops.new work64.new }
{
    let Step::Goes(l) = q else {
        return;
    };
    let a = at_stamps(s);
    let c = Counts {
        regs: s.regs,
        opers: s.opers as usize,
    };
    apply(
        t,
        bounds,
        recs,
        locs,
        vias,
        types,
        ops,
        &mut work64[a..a + s.lent],
        &work32[..CHAIN_WORDS],
        l.moved,
        c,
    );
    let code = Code {
        table: t,
        recs,
        ops,
    };
    renew(&code, bounds, work64, s.regs, l);
}
