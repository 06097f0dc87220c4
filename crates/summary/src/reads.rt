// What a record reads and writes, register by register, against a test.
ghost use Rattle.std.specs.Prelude.{◌≡◌, Option, Some, Bool, ℕ};
ghost use Rattle.words.specs.Lists.{In, all};
ghost use Rattle.model.specs.Picture.{inst, reads, writes};
ghost use Rattle.inst.specs.Index.{Among, Low};
ghost use Rattle.inst.specs.declared.index.Reg.{Reg as RegAt};
ghost use Rattle.regfacts.specs.Written.{Fits, Good};
ghost use Rattle.summary.specs.Passes.{Tests};

use inst::code::{Code, Slots};
use inst::index::Reg;

// Do all registers, of count, that the slots write pass a test, which none passes? (A loop: in an `all` over the range the closure would
// ask that s is one of the five slots, in a contract of its own.)
pub fn all_written<F: Fn(Option<Reg>) -> bool>(slots: &Slots, count: usize, test: F) -> bool
    requires fits { Fits slots.now.recs.now count slots.now.p }
    requires can { (m : Option RegAt) → Among count m → F.pre test m }
    ensures { (t : ℕ → Bool) → Tests count (F.post test) t → result ≡ all t (writes (inst slots.now.recs.now slots.now.p)) }
{
    let n = slots.writers();
    for s in 0..n {
        if !test(slots.write(s, count)) {
            return false;
        }
    }
    true
}

// Do these registers pass it?
fn all_regs<F: Fn(Option<Reg>) -> bool>(regs: &[Reg], test: F) -> bool
    requires can { (r : RegAt) → In r regs.now → F.pre test (Some r) }
    ensures { (t : ℕ → Bool) → ((r : RegAt) (b : Bool) → In r regs.now → F.post test (Some r) b → b ≡ t r.0) → result ≡ all (λ (r : RegAt). t r.0) regs.now }
{
    for r in regs {
        if !test(Some(*r)) {
            return false;
        }
    }
    true
}

// Do those of a list, of count?
fn all_listed<F: Fn(Option<Reg>) -> bool>(list: &[u32], count: usize, test: F) -> bool
    requires low { Low count list.now }
    requires can { (m : Option RegAt) → Among count m → F.pre test m }
    ensures { (t : ℕ → Bool) → Tests count (F.post test) t → result ≡ all t list.now }
{
    for r in list {
        if !test(Reg::new(*r, count)) {
            return false;
        }
    }
    true
}

// Does all that record g reads pass it: in its slots, then in its list?
pub fn all_read<F: Fn(Option<Reg>) -> bool>(code: &Code, g: usize, count: usize, test: F) -> bool
    requires good { Good code.now.recs.now code.now.ops.now count g }
    requires can { (m : Option RegAt) → Among count m → F.pre test m }
    ensures { (t : ℕ → Bool) → Tests count (F.post test) t → result ≡ all t (reads code.now.ops.now (inst code.now.recs.now g)) }
{
    let v = code.visit(g, count);
    if !all_regs(v.reads.as_slice(), &test) {
        return false;
    }
    all_listed(v.list(code.ops), count, test)
}
