// A segment of the block that the members leave: at most 64 records, so that a few kilobytes are enough to save those of them
// that go (01, "The move"). Places before and behind are counted in words here: a record has w of them.
//
// `sink` and `raise` differ in which words lie between and in both places that are written. One function with an enum for the way was
// tried: its two arms are these bodies whole, what is asked and what results is a definition of two cases each, and it is longer.
ghost use Rattle.std.specs.Prelude.{◌≡◌, ◌+◌, ◌*◌, ◌≤◌, length};
ghost use Rattle.mover.specs.Order.{Ask, cells, gone, sunk, raised};

use crate::gather::gather;
use crate::records::Records;
use words::copy::{copy, lift, slide};

// The most records of a segment.
pub const SEGMENT: usize = 64;

// The marked ones of the records go before word e, which is behind them. Returns how many words went.
pub fn sink(xs: &mut [u32], saved: &mut [u32], chain: &[u32], r: Records, e: usize) -> usize
    requires { Ask r.w r.lo r.m r.m e chain.now saved.old xs.old × (r.w * (r.lo + r.m) ≤ e) }
    ensures { (result ≡ length (cells r.w xs.old (gone chain.now r.lo r.m))) × (xs.new ≡ sunk r.w chain.now r.lo r.m e xs.old) }
{
    let s = gather(xs, saved, chain, r);
    if s == 0 {
        return 0;
    }
    let b = r.w * (r.lo + r.m);
    slide(xs, b, b - s, e - b);
    copy(saved, 0, s, xs, e - s);
    s
}

// The same for a word e in front of them.
pub fn raise(xs: &mut [u32], saved: &mut [u32], chain: &[u32], r: Records, e: usize) -> usize
    requires { Ask r.w r.lo r.m r.m e chain.now saved.old xs.old × (e ≤ r.w * r.lo) }
    ensures { (result ≡ length (cells r.w xs.old (gone chain.now r.lo r.m))) × (xs.new ≡ raised r.w chain.now r.lo r.m e xs.old) }
{
    let s = gather(xs, saved, chain, r);
    if s == 0 {
        return 0;
    }
    let b = r.w * (r.lo + r.m);
    lift(xs, e, e + s, b - s - e);
    copy(saved, 0, s, xs, e);
    s
}
