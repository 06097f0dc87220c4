// Causes 4, 5 and 8 (01, "The call", the table): what a record must be by itself. Cause 4 is tested first, so the others
// may look its kind up in the table.
ghost use Rattle.std.specs.Prelude.{◌≡◌, ◌+◌, ◌<◌, get_or};
ghost use Rattle.model.specs.Kinds.{off};
ghost use Rattle.model.specs.Picture.{kind, form, roles, slots};
ghost use Rattle.model.specs.Refusal.{bad_kind, bad_slot, bad_slots, half_part};
ghost use Rattle.inst.specs.Shown.{shown};
ghost use Rattle.inst.specs.Table.{packed};
ghost use Rattle.inst.specs.Record.{uses_of, bad_at};
ghost use Rattle.checks.specs.Causes.{bad_regs, long_cat};

use inst::kinds::{CAT, LAST, SIG_GATHER};
use inst::record::{Record, SLOTS};
use inst::table::{Row, Table, three_bits};
use model::ABSENT;

// The greatest word of a Cat's scalars, a bit a piece.
const SCALARS: u32 = 65535;

// How many operands a Cat's list may have.
const CAT_LIST: usize = 33;

// 4: its kind, form or scalars are not allowed.
#[tactic(auto, using(crate::proofs::Looked::no_kind, crate::proofs::Looked::kind_by))]
pub fn bad_kind(t: &Table, rec: Record) -> bool
    ensures { result ≡ bad_kind (shown rec.entry) }
{
    let k = rec.kind();
    if LAST < k {
        return true;
    }
    !t.row(k, rec.form()).allowed() | ((k == CAT) & (SCALARS < rec.payload(0)))
}

// 5: a slot of this role may not hold r, of that many registers. (A role is three bits of the table's word; an enum of it would be made
// for this one test.)
fn bad_at(regs: u32, role: u32, r: u32) -> bool
    ensures { result ≡ bad_at regs role r }
{
    if role == 0 {
        return r != ABSENT;
    }
    if role < 4 {
        return regs <= r;
    }
    (regs <= r) & (r != ABSENT)
}

// 5: slot s of a record whose slots do this.
#[tactic(auto, using(crate::proofs::Slots::asked))]
fn bad_slot(rec: Record, regs: u32, uses: u32, s: usize) -> bool
    requires { (uses ≡ uses_of (shown rec)) × (s < 5) }
    ensures { result ≡ bad_slot regs (get_or (roles (shown rec.entry)) s off) (get_or (shown rec.entry) (2 + s) 0) }
{
    bad_at(regs, three_bits(uses, s), rec.slot(s))
}

// 5: the five slots of a record.
fn bad_slots(rec: Record, regs: u32, uses: u32) -> bool
    requires { uses ≡ uses_of (shown rec) }
    ensures { result ≡ bad_slots regs (roles (shown rec.entry)) (slots (shown rec.entry)) }
{
    (0..SLOTS).any(|s| bad_slot(rec, regs, uses, s))
}

// 5: a SigGather with one of its two part registers.
fn half_part(rec: Record) -> bool
    ensures { result ≡ half_part (shown rec.entry) }
{
    let a = rec.slot(2);
    let b = rec.slot(3);
    (rec.kind() == SIG_GATHER) & ((a == ABSENT) != (b == ABSENT))
}

// 5: a slot is no register below R, or wrongly absent or present.
#[tactic(auto, using(crate::proofs::Slots::uses_are), unfolding(crate::specs::Causes::bad_regs))]
pub fn bad_regs_at(row: Row, rec: Record, regs: u32) -> bool
    requires { row.0 ≡ packed (kind (shown rec)) (form (shown rec)) }
    ensures { result ≡ bad_regs regs (shown rec.entry) }
{
    bad_slots(rec, regs, row.uses()) | half_part(rec)
}

// 8: a Cat's list is over 33.
pub fn long_cat(rec: Record) -> bool
    ensures { result ≡ long_cat (shown rec.entry) }
{
    (rec.kind() == CAT) & (CAT_LIST < rec.list_len())
}
