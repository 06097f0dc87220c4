// Acceptance of a picture (01, "The call"): the lowest number whose cause is present, and the three gates. Nothing is
// changed. Crate `checks` has causes 4 to 9.
#![tactic(auto)]

pub mod lent; // lent.rt: a picture as its slices are lent
pub mod lengths; // lengths.rt: causes 1, 2 and 10
pub mod blocks; // blocks.rt: cause 3
pub mod gates; // gates.rt: the three gates

ghost use Rattle.std.specs.Prelude.{◌≡◌, []};
ghost use Rattle.model.specs.Refusal.{refusal};
ghost use Rattle.model.specs.Numbered.{verdict};
ghost use Rattle.acceptance.specs.Lent.{picture};

use crate::blocks::gaps;
use crate::lengths::{too_large, too_short, uneven};
use crate::lent::Lent;
use checks::branches::bad_targets;
use checks::lists::{bad_lists, bad_types};
use checks::look::look;
use inst::table::Table;
use model::Refusal;
use sizes::{InUse, Room};

// Is the picture accepted, given the lengths of the two work slices and the records lent? Else the first cause of the table that is
// present.
pub fn accept(lent: Lent, room: Room, table: &Table) -> Result<(), Refusal>
    ensures { result ≡ verdict (refusal (picture lent.entry []) room.w64 room.w32 room.records) }
{
    let blocks = lent.bounds.len() / 2;
    let insts = lent.locs.len();
    let InUse { regs, opers } = lent.used;
    if too_large(lent) {
        return Err(Refusal::Large);
    }
    if uneven(lent) {
        return Err(Refusal::Uneven);
    }
    if gaps(lent.bounds, insts) {
        return Err(Refusal::Blocks);
    }
    let found = look(table, lent.recs, insts, regs, opers, blocks)?;
    if found.regs {
        return Err(Refusal::Slot);
    }
    if bad_lists(found.lists, lent.ops, opers, regs) {
        return Err(Refusal::List);
    }
    if bad_targets(found.branches, lent.targets, lent.pairs, blocks) {
        return Err(Refusal::Branch);
    }
    if found.cats {
        return Err(Refusal::Cat);
    }
    if bad_types(lent.types, regs) {
        return Err(Refusal::Type);
    }
    if too_short(lent, room) {
        return Err(Refusal::Work);
    }
    Ok(())
}
