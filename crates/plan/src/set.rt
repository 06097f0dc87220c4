// The greatest legal set of a chain for a target (01, "The legal set": unions of legal sets are legal, so a greatest one exists; 000's
// `plan`): the positions to begin with are marked, and sweeps in turn drop what breaks a rule, until both drop nothing or too few are
// left.
ghost use Rattle.std.specs.Prelude.{◌≡◌};
ghost use Rattle.plan.specs.Set.{Choosable, Chose};

use crate::sweep::begin;
use crate::turn::{Asked, Last, Sweeps, goes_on, turn};
use facts::Fact;
use inst::code::Code;
use legality::forward::Given;

// The facts' marks become the greatest legal set, unless it has fewer members than `least`. Says how many are marked. The row of registers
// needed elsewhere begins at word `o` of `work`; its words from `s` on, one a register, are written. How many turns it takes is told by
// what they drop, not by a count of them.
pub fn legal_set(code: &Code, regs: &[u32], work: &mut [u64], facts: &mut [Fact], z: Asked) -> u32
    requires { Choosable code.now.recs.now code.now.ops.now regs.now work.old facts.old z }
    ensures { Chose code.now.recs.now code.now.ops.now regs.now z work.old facts.old work.new facts.new result }
{
    let given = Given { code: *code, regs };
    let mut c = Sweeps {
        left: begin(&given, work, facts, z.span),
        last: Last::Dropped,
    };
    while goes_on(c, z.least) {
        c = turn(&given, work, facts, z, c);
    }
    c.left
}
