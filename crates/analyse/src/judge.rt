// What the instruction at a position does (01, "The legal set": `analyse` and `writes_nothing` of 000).
ghost use Rattle.std.specs.Prelude.{◌≡◌, ◌||◌, List, ℕ, ◌≤◌, length};
ghost use Rattle.model.specs.Picture.{inst, kind, form, reads, writes};
ghost use Rattle.model.specs.Analyse.{Facts, Fact, fact, movable};
ghost use Rattle.inst.specs.Table.{packed};
ghost use Rattle.inst.specs.Record.{Within, Known};
ghost use Rattle.inst.specs.Firsts.{Heads};
ghost use Rattle.effects.specs.Origin.{class_of, wrote_at};
ghost use Rattle.regfacts.specs.Flags.{is_length};
ghost use Rattle.regfacts.specs.Written.{Good};
ghost use Rattle.analyse.specs.State.{Marked, Ranged, Below, Asked, fill_in, Low, Judged};

use crate::look::{is_divisor, value_of};
use effects::arms::{Arm, Effect};
use effects::input::Input;
use effects::origin::{UNKNOWN, memory};
use inst::constant::decode;
use inst::index::Reg;
use inst::kinds::CALL_NATIVE;
use inst::record::Record;
use inst::scanned::Firsts;
use inst::table::Row;
use regfacts::flags::is_length;

// What the arm of record g asks, at position p; x has what it reads.
pub fn ask(recs: &[u32], regs: &[u64], x: Firsts, g: usize, p: u32, count: usize) -> Input
    requires { Ranged count p regs.now × Within recs.now g × Below count x }
    ensures { (result.p ≡ p) × ((ops : List ℕ) (G : Facts) (past : List Fact) → Heads (reads ops (inst recs.now g)) (writes (inst recs.now g)) x → length past ≡ p → Marked G past count regs.now → Asked G past ops (inst recs.now g) result) }
{
    let r1 = Reg::new(x.r1, count);
    let v0 = value_of(regs, Reg::new(x.r0, count));
    let v1 = value_of(regs, r1);
    let v2 = value_of(regs, Reg::new(x.r2, count));
    let rec = Record { recs, p: g };
    Input {
        form: rec.form(),
        list: rec.list_len(),
        p,
        reads: [v0, v1, v2],
        divisor: is_divisor(regs, r1),
        small: is_length(decode(rec)),
    }
}

// The memory written: what is not named writes memory nobody can place.
fn placed(e: Effect, quiet: bool, native: bool) -> u32
    ensures { (wrote_at result ≡ fill_in (wrote_at e.wrote) (movable (class_of e.class) || e.barrier || quiet || native)) × (e.wrote ≤ 2004 → result ≤ 2004) }
{
    if e.wrote != 0 {
        return e.wrote;
    }
    if e.class.is_movable() | e.barrier | quiet | native {
        return 0;
    }
    memory(UNKNOWN)
}

// What record g does, by the row of its kind and what it asks.
pub fn judge(recs: &[u32], g: usize, m: Row, y: Input) -> Effect
    requires { Known recs.now g × (m.0 ≡ packed (kind (inst recs.now g)) (form (inst recs.now g))) }
    ensures { Low y.p (inst recs.now g) result × ((ops : List ℕ) (G : Facts) (past : List Fact) (R : ℕ) → R ≤ 65536 → Good recs.now ops R g → Asked G past ops (inst recs.now g) y → Judged result (fact G ops past (inst recs.now g))) }
{
    let e = Arm::of(m).effect(y);
    let rec = Record { recs, p: g };
    Effect {
        wrote: placed(e, m.quiet(), rec.kind() == CALL_NATIVE),
        ..e
    }
}
