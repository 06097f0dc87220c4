// Records, locs and vias of the members go to the target's head in order, whichever of the two blocks lies first (01, "The
// move"). The order that results is that of `order_of` in `model`, block by block.
ghost use Rattle.std.specs.Prelude.{◌≡◌, ℕ, ◌+◌, ◌*◌, ◌≤◌, ◌<◌, length};
ghost use Rattle.mover.specs.Order.{Ask, Lines, Moves, cells, later, earlier, moved, all_moved};

use crate::records::Records;
use crate::segment::{SEGMENT, raise, sink};
use position::PLACE;

// The two loops differ in which segment goes first and in their invariants: one function of both would only be one branch around
// them (as was tried for `sink` and `raise`, segment.rt). Each is a `while`: a segment is 64 records or what is left, so a `for` over
// `step_by` needs the same two numbers, and a measure besides.

// The marked ones of the records go before record t, which is behind them; n records in all. The last segment goes first: the
// words before e are those that have not gone.
fn sink_words(xs: &mut [u32], saved: &mut [u32], chain: &[u32], r: Records, t: usize)
    requires { Ask r.w r.lo r.m 64 (r.w * t) chain.now saved.old xs.old × (r.lo + r.m ≤ t) }
    ensures { (n : ℕ) → length xs.old ≡ r.w * n → xs.new ≡ cells r.w xs.old (later chain.now r.lo r.m t n) }
{
    let mut q = r.m;
    let mut e = r.w * t;
    while 0 < q {
        let m = q.min(SEGMENT);
        q -= m;
        let lo = r.lo + q;
        e -= sink(xs, saved, &chain[PLACE * q..], Records { lo, m, ..r }, e);
    }
}

// The same for a record t in front of them. The first segment goes first.
fn raise_words(xs: &mut [u32], saved: &mut [u32], chain: &[u32], r: Records, t: usize)
    requires { Ask r.w r.lo r.m 64 (r.w * t) chain.now saved.old xs.old × (t ≤ r.lo) }
    ensures { (n : ℕ) → length xs.old ≡ r.w * n → xs.new ≡ cells r.w xs.old (earlier chain.now r.lo r.m t n) }
{
    let mut q = 0;
    let mut e = r.w * t;
    while q < r.m {
        let lo = r.lo + q;
        let m = (r.m - q).min(SEGMENT);
        e += raise(xs, saved, &chain[PLACE * q..], Records { lo, m, ..r }, e);
        q += m;
    }
}

// A record has 16 words at most, and 64 of them are saved at a time.
const SAVED: usize = 1024;

// Either way.
fn move_words(xs: &mut [u32], saved: &mut [u32; SAVED], chain: &[u32], r: Records, t: usize)
    requires m_in_bounds { (r.w * (r.lo + r.m) ≤ length xs.old) × (r.lo + r.m ≤ length xs.old) × (r.w * t ≤ length xs.old) × (r.w ≤ 16) × (10 * r.m ≤ length chain.now) }
    requires m_bound { r.lo < t → r.lo + r.m ≤ t }
    ensures { (n : ℕ) → length xs.old ≡ r.w * n → xs.new ≡ cells r.w xs.old (moved chain.now r.lo r.m t n) }
{
    if r.lo < t {
        sink_words(xs, saved, chain, r, t);
    } else {
        raise_words(xs, saved, chain, r, t);
    }
}

// The members among the m instructions from lo on go before instruction t: records, locs and vias, of which there may be none.
// (Seven parameters: three slices are written; and m is a count and no range with lo, since the positions go by it.)
pub fn move_all(
    recs: &mut [u32],
    locs: &mut [u32],
    vias: &mut [u32],
    chain: &[u32],
    lo: usize,
    m: usize,
    t: usize,
)
    requires { Lines lo m t chain.now recs.old locs.old vias.old }
    ensures { Moves lo m t chain.now recs.old recs.new locs.old locs.new vias.old vias.new }
{
    let mut saved = [0; SAVED];
    let words = Records { lo, m, w: 1 };
    move_words(recs, &mut saved, chain, Records { w: 16, ..words }, t);
    move_words(locs, &mut saved, chain, words, t);
    if !vias.is_empty() {
        move_words(vias, &mut saved, chain, words, t);
    }
}
