// The facts along the chain (01, "The legal set"), a record a position in the lent list, and a copy of the words of the registers in
// use, last writers and flags, which the set is found by while the 64-bit slice takes its stamps.
ghost use Rattle.std.specs.Prelude.{◌≡◌};
ghost use Rattle.chainwords.specs.Puts.{Copying, Copied};
ghost use Rattle.chainwords.specs.Along.{Learning, Learnt};

use analyse::along::analyse;
use analyse::look::LEFT;
use cfg::body::Body;
use chains::chain::Chain;
use facts::Fact;
use inst::code::Code;
use sizes::{COPIED, at_regs};

// The last writers and flags of the first r words from word a on, from word 8,000 on.
fn copy_regs(work64: &[u64], work32: &mut [u32], a: usize, r: usize)
    requires { Copying work64.now a r work32.old }
    ensures { Copied work64.now a r work32.old work32.new }
{
    for i in 0..r {
        work32[COPIED + i] = (work64[a + i] % LEFT) as u32;
    }
}

// The facts of chain c. The answer is the number of its positions.
pub fn learn(
    body: &Body<'_>,
    work64: &mut [u64],
    work32: &mut [u32],
    facts: &mut [Fact],
    c: Chain,
) -> usize
    requires { Learning body.now.func.bounds.now body.now.func.recs.now body.now.ops.now body.now.sizes c work64.old work32.old facts.old }
    ensures { Learnt body.now.func.bounds.now body.now.func.recs.now body.now.ops.now body.now.sizes c work64.old work32.old work64.new work32.new facts.new result }
{
    let r = body.sizes.regs as usize;
    let a = at_regs(body.sizes);
    let e = a + body.sizes.lent;
    let code = Code {
        table: body.func.table,
        recs: body.func.recs,
        ops: body.ops,
    };
    let n = analyse(&code, &mut work64[a..e], facts, body.func.bounds, c, r);
    copy_regs(work64, work32, a, r);
    n as usize
}
