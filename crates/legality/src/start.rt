// The positions to begin with: movable, in x, and by rule 2, which does not ask of the set (01, "The legal set").
ghost use Rattle.std.specs.Prelude.{◌≡◌, ◌<◌, ◌≤◌, length};
ghost use Rattle.summary.specs.Passes.{begin_test, Written};

use crate::rules::{Elsewhere, rule2};
use facts::Fact;
use inst::code::Code;

// Does position p, of fact f, which is in x, begin in the set?
pub fn begins_in(code: &Code, f: Fact, asked: &Elsewhere<'_>, p: usize) -> bool
    requires { Written code.now.recs.now (length asked.now.regs.now) f.rec f.def f.more × (p < 800) × (asked.now.at ≤ length asked.now.bits.now) }
    ensures { result ≡ begin_test code.now.recs.now asked.now.regs.now asked.now.bits.now f asked.now.at p }
{
    f.class == 1 && rule2(code, f, asked, p)
}
