// Counting first (01, "Answers": "Short, exactly if the next round's move needs more registers or operands than the lent room"):
// the registers and operands in use after a move. Only work words are written: the new registers, and names.
ghost use Rattle.std.specs.Prelude.{◌≡◌, length};
ghost use Rattle.rename.specs.Names.{Exists};
ghost use Rattle.apply.specs.Apply.{Asks, Counted};

use crate::moves::Move;
use inst::code::Code;
use pool::allot::allot;
use rename::all::count_all;

// Registers and operands in use. (It is no `sizes::InUse`: what is counted may be more operands than a word says, until it is weighed.)
#[derive(Clone, Copy, Debug, PartialEq, Eq)]
pub struct Counts {
    pub regs: u32,
    pub opers: usize,
}

// Those in use after move m, where c are. (Two slices are written, and what is read is less than a round's `Body`.)
pub fn needs(
    code: &Code,
    bounds: &[u32],
    types: &[u32],
    names: &mut [u64],
    w: &mut [u32],
    m: Move,
    c: Counts,
) -> Counts
    requires { Exists (λ N. Asks m.from.0 m.into.0 m.inside m.places c.regs c.opers (length names.old) N bounds.now code.now.recs.now types.now code.now.ops.now w.old) }
    ensures { Counted m.from.0 m.into.0 m.inside m.places c.regs c.opers bounds.now code.now.recs.now types.now code.now.ops.now w.old w.new result.regs result.opers }
{
    let regs = allot(w, m.inside, c.regs, types);
    let walk = m.walk(bounds, w);
    let more = count_all(code, &walk, names);
    Counts {
        regs,
        opers: c.opers + more,
    }
}
