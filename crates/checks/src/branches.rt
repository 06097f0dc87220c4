// Cause 7 (01, "The call", the table): every branch of a record, wherever it stands in its block, every case target word,
// covered by a pair or not, and every case pair.
ghost use Rattle.std.specs.Prelude.{◌≡◌};
ghost use Rattle.model.specs.Picture.{kind, form};
ghost use Rattle.model.specs.Refusal.{bad_branch, bad_pairs};
ghost use Rattle.inst.specs.Table.{packed};
ghost use Rattle.inst.specs.Record.{Known};
ghost use Rattle.inst.specs.Shown.{shown};
ghost use Rattle.checks.specs.Causes.{bad_targets};

use crate::lists::any_from;
use inst::record::Record;
use inst::table::{Row, Shape};

// A branch to no block. (A Case goes by its table, whose targets are looked at with all others.)
pub fn bad_branch(row: Row, rec: Record, blocks: usize) -> bool
    requires known { Known rec.recs.now rec.p }
    requires row { row.0 ≡ packed (kind (shown rec)) (form (shown rec)) }
    ensures { result ≡ bad_branch blocks (shown rec.entry) }
{
    let t = rec.payload(0) as usize;
    let f = rec.payload(1) as usize;
    match row.shape() {
        Shape::Goes => blocks <= t,
        Shape::Parts => (blocks <= t) | (blocks <= f),
        Shape::Cases => false,
        Shape::Stops => false,
    }
}

// A case pair, its start and its length, that is empty or past its n targets. (A loop: std has no law of the items of `chunks_exact`,
// and by `any` over them the check found no proof.)
fn bad_pairs(pairs: &[u32], n: usize) -> bool
    ensures { result ≡ bad_pairs n pairs.now }
{
    for pair in pairs.chunks_exact(2) {
        let start = pair[0] as usize;
        let len = pair[1] as usize;
        if (len == 0) | (n < start + len) {
            return true;
        }
    }
    false
}

// 7: a record's branch is bad, or a case target or pair is.
#[tactic(auto, using(crate::proofs::Insts::any_is), unfolding(crate::specs::Causes::bad_targets))]
pub fn bad_targets(branches: bool, targets: &[u32], pairs: &[u32], blocks: usize) -> bool
    ensures { result ≡ bad_targets branches targets.now pairs.now blocks }
{
    branches || any_from(targets, blocks) || bad_pairs(pairs, targets.len())
}
