// Sole predecessors (01, "A round"; in the Rust `find_preds`): each block tells the blocks that it goes to, in two words a block. The
// start of the function leads to block 0 (request 2026-02).
ghost use Rattle.std.specs.Prelude.{◌≡◌, ℕ, ◌+◌, ◌*◌, ◌≤◌, ◌<◌, length};
ghost use Rattle.model.specs.Picture.{from_start};
ghost use Rattle.cfg.specs.Func.{blocks_of, drawn_of};
ghost use Rattle.cfg.specs.Preds.{Told, Preds, count_after, which_after, noted};
ghost use Rattle.words.specs.Steps.{steps};

use crate::graph::Func;
use crate::succs::Succs;
use inst::index::BlockId;

// How many predecessors a block has with c, where k and p are its two words: words of a lent slice, which `virdzeba_preds` hands out,
// so they are no enum.
fn count_after(k: u32, p: u32, c: BlockId) -> u32
    ensures { result ≡ count_after k p c.0 }
{
    if k == 0 {
        return 1;
    }
    if (k == 1) & (p != c.number()) {
        return 2;
    }
    k
}

// And which is the first.
fn which_after(k: u32, p: u32, c: BlockId) -> u32
    ensures { result ≡ which_after k p c.0 }
{
    if k == 0 {
        return c.number();
    }
    p
}

// Block c goes to block b.
fn note(words: &mut [u32], c: BlockId, b: BlockId)
    requires { 2 * b.0 + 1 < length words.old }
    ensures { words.new ≡ noted c.0 words.old b.0 }
{
    let i = 2 * b.at();
    let k = words[i];
    let p = words[i + 1];
    words[i] = count_after(k, p, c);
    words[i + 1] = which_after(k, p, c);
}

// Block c goes to each of these.
fn note_all(words: &mut [u32], succs: Succs<'_>, c: BlockId)
    requires { 2 * succs.count ≤ length words.old }
    ensures { words.new ≡ steps (noted c.0) words.old succs.entry.list.now }
{
    for b in succs {
        note(words, c, b);
    }
}

// Nothing leads to any of n blocks yet, but the start of the function to block 0: it is no block, and has the number n.
fn begin(words: &mut [u32], n: u32)
    requires { 2 * n ≤ length words.old }
    ensures { (b : ℕ) → b < n → Told words.new b (from_start n b) }
{
    words.fill(0);
    if n > 0 {
        words[0] = 1;
        words[1] = n;
    }
}

// For each block how many predecessors it has, up to two, and the first: words 2 b and 2 b + 1.
pub fn find_preds(words: &mut [u32], func: &Func<'_>)
    requires { 2 * blocks_of func.now ≤ length words.old }
    ensures { Preds (drawn_of func.now) words.new }
{
    let n = func.blocks();
    begin(words, n);
    for k in 0..n {
        let c = BlockId::known(k, n);
        note_all(words, func.succs(c), c);
    }
}
