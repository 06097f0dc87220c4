// The three gates of an accepted picture (01, "The call"): no blocks; registers × blocks above 2,097,152; no Cat with
// `logic` false.
ghost use Rattle.std.specs.Prelude.{◌≡◌, [], map, ◌-◌, ◌*◌, ◌/◌, ◌≤◌, length};
ghost use Rattle.words.specs.Lists.{range, any};
ghost use Rattle.model.specs.Picture.{inst};
ghost use Rattle.model.specs.Pass.{gated};
ghost use Rattle.inst.specs.Record.{Within};
ghost use Rattle.checks.specs.Causes.{plain_cat, picture_of};

use inst::kinds::CAT;
use inst::record::Record;

// Registers times blocks above which nothing is tried.
const BUDGET: usize = 2097152;

// Record p is a Cat of form 0. (It makes the record itself: the closure below would have to say what it asks of p.)
pub fn plain_cat(recs: &[u32], p: usize) -> bool
    requires { Within recs.now p }
    ensures { result ≡ plain_cat (inst recs.now p) }
{
    let rec = Record { recs, p };
    (rec.kind() == CAT) & (rec.form() == 0)
}

// Is one of the records from a up to e such a Cat?
pub fn plain_cat_in(recs: &[u32], a: usize, e: usize) -> bool
    requires { (a ≤ e) × (16 * e ≤ length recs.now) }
    ensures { result ≡ any plain_cat (map (inst recs.now) (range a (e - a))) }
{
    (a..e).any(|p| plain_cat(recs, p))
}

// Is nothing tried? The gates look at bounds, records, locs and the registers in use alone, so they ask for no more.
#[tactic(auto, unfolding(checks::specs::Causes::code))]
pub fn gated(bounds: &[u32], recs: &[u32], locs: &[u32], regs: u32) -> bool
    requires { (length bounds.now / 2 ≤ 4096) × (16 * length locs.now ≤ length recs.now) }
    ensures { result ≡ gated (picture_of bounds.now recs.now locs.now [] [] regs [] 0 [] [] []) }
{
    let blocks = bounds.len() / 2;
    (blocks == 0) | (BUDGET < regs as usize * blocks) | !plain_cat_in(recs, 0, locs.len())
}
