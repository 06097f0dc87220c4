// The facts along a chain (01, "The legal set"), a record a position in the lent list.
ghost use Rattle.facts.specs.Marks.{bare};
ghost use Rattle.analyse.specs.Step.{Ready, Analysed};

use crate::learn::learn_one;
use crate::marks::forget;
use chains::chain::Chain;
use chains::positions::Positions;
use facts::Fact;
use inst::code::Code;

// The facts of chain c, with `count` registers in use. The answer is the number of positions.
pub fn analyse(
    code: &Code,
    regs: &mut [u64],
    facts: &mut [Fact],
    bounds: &[u32],
    c: Chain,
    count: usize,
) -> u32
    requires { Ready code.now.recs.now code.now.ops.now regs.old facts.old bounds.now c count }
    ensures { Analysed code.now.recs.now code.now.ops.now regs.old (bare facts.old) bounds.now c count result regs.new (bare facts.new) }
{
    forget(regs, count);
    let mut p = 0u32;
    for g in Positions::new(bounds, c) {
        facts[p as usize] = learn_one(code, regs, g, p, count);
        p += 1;
    }
    p
}
