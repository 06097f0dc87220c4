// Live-in (01, "A round": "Live-in is the least solution of: read before written, or live into a successor and
// not written"; in the Rust `liveness`). The row of a block begins as what it reads first, and takes over what is
// live into each successor and not written, in sweeps from the last block to the first and from the first to the last by
// turns, so that a chain of blocks settles in one sweep whichever way its numbers go, until nothing changes.
ghost use Rattle.std.specs.Prelude.{◌≡◌, not, List, ℕ, ◌+◌, ◌*◌, ◌^◌, ◌≤◌, ◌<◌, eqb, length, get_or, set, take, drop};
ghost use Rattle.std.proofs.lemmas.List.Edits.{sets};
ghost use Rattle.words.specs.Bits.{width};
ghost use Rattle.model.specs.Picture.{succs};
ghost use Rattle.cfg.specs.Drawn.{drawn};
ghost use Rattle.cfg.specs.Func.{blocks_of, drawn_of};
ghost use Rattle.defuse.specs.Sets.{Room};
ghost use Rattle.flow.specs.Progress.{raised, Among, Edges, Progress, Solved};
ghost use Rattle.flow.specs.Live.{RowRoom, Rows, Live, gathered};
ghost use Rattle.flow.specs.Order.{kth};

use crate::grid::Grid;
use cfg::graph::Func;
use cfg::succs::Succs;
use inst::index::BlockId;
use words::bits::width;

// One word: a takes what stands at c and not at d. Tells whether it changed.
fn raise(bits: &mut [u64], a: usize, c: usize, d: usize) -> bool
    requires { (a < length bits.old) × (c < length bits.old) × (d < length bits.old) }
    ensures bits_after { bits.new ≡ set bits.old a (raised bits.old a c d) }
    ensures value { result ≡ not (eqb (raised bits.old a c d) (get_or bits.old a 0)) }
    ensures d_bound { (raised bits.old a c d < 2 ^ 64) × (get_or bits.old d 0 < 2 ^ 64) }
{
    let old = bits[a];
    let new = old | (bits[c] & !bits[d]);
    bits[a] = new;
    new != old
}

// One edge: block b takes what is live into s and it does not write. Tells whether it changed. (By index: both rows lie in one slice,
// and are the same one where a block goes to itself.)
fn join(bits: &mut [u64], grid: Grid, b: BlockId, s: BlockId) -> bool
    requires { Room grid.blocks grid.width bits.old × (b.0 < grid.blocks) × (s.0 < grid.blocks) }
    ensures { Progress grid.blocks grid.width (drop (grid.blocks * grid.width) bits.old)
        (λ c x j. (c ≡ b.0) × (x ≡ s.0) × (j < grid.width)) bits.old bits.new result }
{
    let to = grid.live(b);
    let from = grid.live(s);
    let writes = grid.writes(b);
    let mut changed = false;
    for i in 0..grid.width {
        changed |= raise(bits, to + i, from + i, writes + i);
    }
    changed
}

// One block: it takes what is live into each of its successors. Tells whether it changed.
fn settle(bits: &mut [u64], succs: Succs<'_>, grid: Grid, b: BlockId) -> bool
    requires { Room grid.blocks grid.width bits.old × (b.0 < grid.blocks) × (succs.count ≡ grid.blocks) }
    ensures { Progress grid.blocks grid.width (drop (grid.blocks * grid.width) bits.old)
        (λ c x i. (c ≡ b.0) × Among succs.entry.list.now (length succs.entry.list.now) x × (i < grid.width)) bits.old bits.new result }
{
    let mut changed = false;
    for s in succs {
        changed |= join(bits, grid, b, s);
    }
    changed
}

// Which way a sweep goes through the blocks: from the last to the first, or from the first to the last.
#[derive(Clone, Copy, PartialEq, Eq, Debug)]
enum Order {
    Down,
    Up,
}

impl Order {
    // The k-th of n blocks.
    fn kth(self, k: u32, n: u32) -> BlockId
        requires { k < n }
        ensures { result.0 ≡ kth self k n }
    {
        match self {
            Order::Down => BlockId::known(n - 1 - k, n),
            Order::Up => BlockId::known(k, n),
        }
    }
}

// Every block once. Tells whether one changed.
fn sweep(bits: &mut [u64], func: &Func<'_>, w: usize, order: Order) -> bool
    requires { Room (blocks_of func.now) w bits.old }
    ensures { Progress (blocks_of func.now) w (drop (blocks_of func.now * w) bits.old) (Edges (blocks_of func.now) w (succs (drawn_of func.now)))
        bits.old bits.new result }
{
    let grid = Grid {
        blocks: func.blocks(),
        width: w,
    };
    let mut changed = false;
    for k in 0..grid.blocks {
        let b = order.kth(k, grid.blocks);
        changed |= settle(bits, func.succs(b), grid, b);
    }
    changed
}

// Sweeps down and up until a sweep up changes nothing: then every edge holds, whatever the sweep down changed.
fn solve(bits: &mut [u64], func: &Func<'_>, w: usize)
    requires { Room (blocks_of func.now) w bits.old }
    ensures { Solved (blocks_of func.now) w (succs (drawn_of func.now)) bits.old bits.new }
{
    // (A loop: it ends when nothing changes, which comes about since each change adds a bit to a row.)
    loop {
        sweep(bits, func, w, Order::Down);
        if !sweep(bits, func, w, Order::Up) {
            return;
        }
    }
}

// n words from s on go to the head of the slice. (A loop: `copy_within` calls C's memmove, which the archive for C does not ask for.)
fn to_head(bits: &mut [u64], s: usize, n: usize)
    requires { s + n ≤ length bits.old }
    ensures { bits.new ≡ sets bits.old 0 (take n (drop s bits.old)) }
{
    for i in 0..n {
        bits[i] = bits[s + i];
    }
}

// Live-in of every block: row b at the head of the slice, from the rows that rows.rt makes, whatever the operands are that
// those are of. What lies behind the n rows of live-in is left as it was.
pub fn live_in(bits: &mut [u64], func: &Func<'_>, regs: usize)
    requires { RowRoom (blocks_of func.now) (width regs) bits.old × (regs ≤ 65536) }
    ensures by_index { (ops : List ℕ)
        → ((b : ℕ) → b < blocks_of func.now → Rows (drawn func.now.bounds.now func.now.recs.now ops func.now.pairs.now func.now.targets.now) (width regs) b bits.old)
        → Live (drawn func.now.bounds.now func.now.recs.now ops func.now.pairs.now func.now.targets.now) (width regs) bits.new }
    ensures bits_unchanged { drop (blocks_of func.now * width regs) bits.new ≡ drop (blocks_of func.now * width regs) bits.old }
{
    let grid = Grid {
        blocks: func.blocks(),
        width: width(regs),
    };
    let n = grid.blocks as usize;
    to_head(bits, grid.row(2 * n + 1), grid.row(n));
    solve(bits, func, grid.width);
}

// Word i of the row of live-in of each of these blocks. (A loop: as a fold, what its closure asks of each block was not proved.)
pub fn gather(bits: &[u64], succs: Succs<'_>, grid: Grid, i: usize) -> u64
    requires { (i < grid.width) × (grid.blocks * grid.width ≤ length bits.now) × (succs.count ≡ grid.blocks) }
    ensures { result ≡ gathered bits.now grid.width i 0 succs.entry.list.now }
{
    let mut x: u64 = 0;
    for s in succs {
        x |= bits[grid.live(s) + i];
    }
    x
}
