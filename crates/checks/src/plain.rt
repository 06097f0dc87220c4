// Records in which no cause from 4 to 8 is present, by one test (01, "The call", the table): nearly all records pass it, and
// the causes are looked at one by one only in the others.
ghost use Rattle.std.specs.Prelude.{◌≡◌, ◌*◌, ◌≤◌, ◌<◌, length};
ghost use Rattle.inst.specs.Shown.{shown};
ghost use Rattle.checks.specs.Plain.{simple, bare, odd_slot, usual, plain, Skipped};

use inst::kinds::LAST;
use inst::record::Record;
use inst::table::{Row, Table, two_bits};
use model::ABSENT;

// A kind of this row has neither a list nor successors, and may have the form.
fn simple(row: Row) -> bool
    ensures { result ≡ simple row.0 }
{
    !row.has_list() & row.stops() & row.allowed()
}

// A record has no list.
fn bare(rec: Record) -> bool
    ensures { result ≡ bare (shown rec.entry) }
{
    (rec.list_start() == 0) & (rec.list_len() == 0)
}

// Slot s is not what it mostly is: absent where nothing is done with it, and else a register.
fn odd_slot(rec: Record, regs: u32, uses: u32, s: usize) -> bool
    requires { s < 5 }
    ensures { result ≡ odd_slot regs uses (shown rec.entry) s }
{
    let none = two_bits(uses, s) == 0;
    let r = rec.slot(s);
    let gone = r == ABSENT;
    (gone != none) | (!gone & (regs <= r))
}

// None of the first four slots is so, and nothing is done with the last, which is absent. (Four tests with no branch between them: by
// `any` over the four a pass over plain records took half as many instructions again.)
#[tactic(auto, unfolding(crate::specs::Plain::usual))]
fn usual(rec: Record, regs: u32, uses: u32) -> bool
    ensures { result ≡ usual regs uses (shown rec.entry) }
{
    let b0 = odd_slot(rec, regs, uses, 0);
    let b1 = odd_slot(rec, regs, uses, 1);
    let b2 = odd_slot(rec, regs, uses, 2);
    let b3 = odd_slot(rec, regs, uses, 3);
    (uses < 65536) & (rec.slot(4) == ABSENT) & !(b0 | (b1 | (b2 | b3)))
}

// Is nothing found in a record?
pub fn plain(t: &Table, rec: Record, regs: u32) -> bool
    ensures { result ≡ plain regs (shown rec.entry) }
{
    let k = rec.kind();
    if LAST < k {
        return false;
    }
    let row = t.row(k, rec.form());
    if simple(row) & bare(rec) {
        return usual(rec, regs, row.uses());
    }
    false
}

// Past such records: of n, all from p up to the answer are so, and the next one, if there is one, is not. (A loop: in
// `(p..n).find(..)` the closure has to say that record q is whole, and the check found no proof of what is found.)
#[tactic(auto, using(crate::proofs::Freed::skip_none, crate::proofs::Freed::skip_more, crate::proofs::Freed::skip_stop, crate::proofs::Freed::skip_end, crate::proofs::Given::within))]
pub fn skip(t: &Table, recs: &[u32], n: usize, regs: u32, p: usize) -> usize
    requires { (16 * n ≤ length recs.now) × (p ≤ n) }
    ensures { Skipped regs recs.now n p result }
{
    for q in p..n {
        if !plain(t, Record { recs, p: q }, regs) {
            return q;
        }
    }
    n
}
