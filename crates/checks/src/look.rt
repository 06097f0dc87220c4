// What causes 4 to 8 find in the records (01, "The call", the table), in one pass that goes past plain ones. A lower cause at any
// record comes before a higher one, so the rest is not looked at once a kind is bad.
ghost use Rattle.std.specs.Prelude.{◌≡◌, ◌*◌, ◌≤◌, length};
ghost use Rattle.checks.specs.Found.{found};
ghost use Rattle.checks.specs.Causes.{code};

use crate::branches::bad_branch;
use crate::lists::bad_list;
use crate::plain::skip;
use crate::records::{bad_kind, bad_regs_at, long_cat};
use inst::record::Record;
use inst::table::Table;
use model::Refusal;

// Where no kind is bad: whether one of the records is bad in its registers (5), list (6) or branch (7), or is a long Cat (8).
#[derive(Clone, Copy, PartialEq, Eq, Debug)]
pub struct Found {
    pub regs: bool,
    pub lists: bool,
    pub branches: bool,
    pub cats: bool,
}

// Of n records. Causes 6 and 7 are of lists and targets too, which are looked at elsewhere; so what is found is not one cause, but
// each by itself.
#[tactic(auto, using(crate::proofs::Given::within, crate::proofs::Given::known, crate::proofs::Given::row_by))]
pub fn look(
    t: &Table,
    recs: &[u32],
    n: usize,
    r: u32,
    opers: u32,
    blocks: usize,
) -> Result<Found, Refusal>
    requires { 16 * n ≤ length recs.now }
    ensures { result ≡ found r opers blocks (code recs.now n) }
{
    let used = opers as usize;
    // Four variables, and no `Found` that is changed in place: over 32,758 records that took 2% more instructions, and the pictures that
    // grow are at the goal of 3 times the Rust with nothing to spare (docs/SPEED.md).
    let mut regs = false;
    let mut lists = false;
    let mut branches = false;
    let mut cats = false;
    let mut p = 0;
    // The step is the next record that is not plain, so no range gives it.
    while p < n {
        let rec = Record { recs, p };
        if bad_kind(t, rec) {
            return Err(Refusal::Kind);
        }
        let row = t.row(rec.kind(), rec.form());
        regs |= bad_regs_at(row, rec, r);
        lists |= bad_list(row, rec, used);
        branches |= bad_branch(row, rec, blocks);
        cats |= long_cat(rec);
        p = skip(t, recs, n, r, p + 1);
    }
    Ok(Found {
        regs,
        lists,
        branches,
        cats,
    })
}
