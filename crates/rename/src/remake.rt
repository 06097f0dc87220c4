// One record made anew (01, "The move"): its reads by their names, its write by its new register, and its list, if that changes,
// behind the operands in use.
ghost use Rattle.std.specs.Prelude.{◌≡◌, ◌<◌};
ghost use Rattle.rename.specs.Names.{Exists, Fit, Remade};

use crate::lists::{append, changes};
use crate::slots::{Anew, rename_slots};
use inst::record::Record;

// Record p, where o operands are in use. Returns how many are in use then. (Inlined always, with its slots: else the names are put into
// memory for each record, and taken out again.)
#[inline(always)]
pub fn remake(recs: &mut [u32], p: usize, uses: u32, ops: &mut [u32], o: usize, anew: Anew) -> usize
    requires { Exists (λ u. Fit p uses u o anew.names.now anew.new recs.old ops.old) }
    ensures { Remade p o anew.entry.names.now anew.entry.new recs.old recs.new ops.old ops.new result }
{
    let rec = Record { recs, p };
    let s = rec.list_start();
    let n = rec.list_len();
    rename_slots(recs, p, uses, anew);
    let c = changes(&ops[s..s + n], anew.names);
    if c {
        append(ops, s, n, o, anew.names);
        recs[16 * p + 7] = o as u32;
        return o + n;
    }
    o
}
