// The last writer of each register along a chain (01, "The legal set"; 000's `last`), and what it left there: in a register's
// word, over its flags (see look.rt).
ghost use Rattle.std.specs.Prelude.{◌≡◌, ◌≤◌, ◌<◌, length, get_or};
ghost use Rattle.model.specs.Picture.{inst, absent, writes};
ghost use Rattle.inst.specs.Written.{Written};
ghost use Rattle.regfacts.specs.Written.{Fits};
ghost use Rattle.analyse.specs.Step.{stamp, marked, Forgot};

use crate::look::{LAYOUT, LENGTH, POSITIONS};
use inst::code::Slots;
use inst::index::Reg;
use inst::scanned::Firsts;
use inst::written::{change, change_written};
use model::ABSENT;
use regfacts::flags::FLAGS;

// No register has a writer yet.
pub fn forget(regs: &mut [u64], count: usize)
    requires { count ≤ length regs.old }
    ensures { Forgot count regs.old regs.new }
{
    for w in regs[..count].iter_mut() {
        *w %= FLAGS;
    }
}

// What goes over the flags of a register that position p writes: p and 1, where the value points, whether it is a length, and
// whether it points to a layout.
pub fn stamp(p: u32, org: u32, len: bool, layout: bool) -> u64
    requires { (p < 1000) × (org < 2048) }
    ensures { (result ≡ stamp p org len layout) × (result < 16777216) }
{
    let held = u64::from(org) + LENGTH * u64::from(len) + LAYOUT * u64::from(layout);
    u64::from(p) + 1 + POSITIONS * held
}

// A register's word v once it is written: d stands over its flags.
#[tactic(auto, unfolding(crate::specs::Step::marked))]
fn marked(v: u64, d: u64) -> u64
    requires { d < 16777216 }
    ensures { result ≡ marked d v }
{
    FLAGS * d + v % FLAGS
}

// All that a record writes; x has the first two of that.
pub fn mark_record(slots: &Slots, regs: &mut [u64], x: Firsts, d: u64)
    requires { (d < 16777216) × Fits slots.now.recs.now (length regs.old) slots.now.p × (x.d0 ≡ get_or (writes (inst slots.now.recs.now slots.now.p)) 0 absent) × (x.d1 ≡ get_or (writes (inst slots.now.recs.now slots.now.p)) 1 absent) }
    ensures { Written (marked d) (inst slots.now.recs.now slots.now.p) regs.old regs.new }
{
    if x.d1 == ABSENT {
        change(regs, Reg::new(x.d0, regs.len()), |v| marked(v, d));
        return;
    }
    change_written(slots, regs, |v| marked(v, d));
}
