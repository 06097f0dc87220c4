// The slots of a record under new names (01, "The call": `visit_mut` fixes the roles).
ghost use Rattle.std.specs.Prelude.{◌≡◌, ℕ, ◌+◌, ◌*◌, ◌≤◌, ◌<◌, length, get_or};
ghost use Rattle.inst.specs.Index.{word_of, Among};
ghost use Rattle.inst.specs.Record.{Used};
ghost use Rattle.rename.specs.Names.{slotted, Slotted};

use crate::names::{name, or};
use inst::index::Reg;
use inst::table::two_bits;
use model::ABSENT;

// What a record's registers become: those that it reads what the names say, and the one that it writes `new`, or itself where that is
// absent. (It is a position's word as it stands. An `Option<u32>` could still hold the absent word, and each contract had to rule that
// out.)
#[derive(Clone, Copy)]
pub struct Anew<'a> {
    pub names: &'a [u64],
    pub new: u32,
}

// A slot's word after, by what the slot does.
fn slot_word(r: Option<Reg>, does: u32, anew: Anew) -> u32
    requires { Among (length anew.names.now) r }
    ensures { result ≡ slotted does anew.entry.names.now anew.entry.new (word_of r) }
{
    let Some(k) = r else {
        return ABSENT;
    };
    if does == 1 {
        return name(anew.names, k);
    }
    if does == 2 {
        return or(anew.new, k.number());
    }
    k.number()
}

// The five slots of record p, whose slots do what `uses` says.
#[inline(always)]
pub fn rename_slots(recs: &mut [u32], p: usize, uses: u32, anew: Anew)
    requires used { Used recs.old p uses × (length anew.names.now ≤ 4294967295) }
    requires by_index { (s : ℕ) → s < 5 → (get_or recs.old (16 * p + 2 + s) 0 ≡ 4294967295 → ⊥) → get_or recs.old (16 * p + 2 + s) 0 < length anew.names.now }
    ensures { Slotted p uses anew.entry.names.now anew.entry.new recs.old recs.new 5 }
{
    let b = 16 * p;
    for s in 0..5 {
        let does = two_bits(uses, s);
        let r = Reg::new(recs[b + 2 + s], anew.names.len());
        recs[b + 2 + s] = slot_word(r, does, anew);
    }
}
