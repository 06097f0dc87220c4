// The rows of what each block reads before it writes it and of what it writes (01, "A round"), `width(regs)` words a row: of n blocks,
// block b's are rows 2 n + 1 + b and n + b. They stand between rounds, and are made anew for a block whose code changed. Whoever asks
// for the facts on registers too lends a word a register, in which the writers are noted on the way; who does not, lends none.
ghost use Rattle.std.specs.Prelude.{◌≡◌, [], ℕ, map, ◌+◌, ◌*◌, ◌/◌, ◌≤◌, ◌<◌, length, get_or, replicate};
ghost use Rattle.std.proofs.lemmas.List.Edits.{sets};
ghost use Rattle.words.specs.Bits.{width};
ghost use Rattle.words.specs.Lists.{upto, concat};
ghost use Rattle.model.specs.Picture.{places};
ghost use Rattle.cfg.specs.Drawn.{drawn};
ghost use Rattle.cfg.specs.Graph.{Blocks};
ghost use Rattle.defuse.specs.Coded.{Coded};
ghost use Rattle.defuse.specs.Writers.{notes};
ghost use Rattle.flow.specs.Live.{RowRoom, Rows, OnlyRows};

use crate::grid::Grid;
use defuse::sets::{Pair, block_sets};
use inst::code::Code;
use inst::index::BlockId;
use words::bits::width;

// n words from `at` on cleared.
fn clear_at(bits: &mut [u64], at: usize, n: usize)
    requires { at + n ≤ length bits.old }
    ensures { bits.new ≡ sets bits.old at (replicate n 0) }
{
    bits[at..at + n].fill(0);
}

// Both rows of block b, of `regs` registers, from its code. (`Blocks`, and no `Func`: the case tables have no part in it, and
// `oneround::make` has none at hand.)
pub fn block_rows(
    bits: &mut [u64],
    writers: &mut [u64],
    code: &Code<'_>,
    bounds: &[u32],
    regs: usize,
    b: BlockId,
)
    requires { Blocks bounds.now code.now.recs.now × Coded code.now regs
        × RowRoom (length bounds.now / 2) (width regs) bits.old × (b.0 < length bounds.now / 2) }
    ensures rows { Rows (drawn bounds.now code.now.recs.now code.now.ops.now [] []) (width regs) b.0 bits.new }
    ensures only_rows { OnlyRows (length bounds.now / 2) (width regs) b.0 bits.old bits.new }
    ensures writers { writers.new ≡ notes code.now.recs.now writers.old (places (drawn bounds.now code.now.recs.now code.now.ops.now [] []) b.0) }
{
    let grid = Grid {
        blocks: (bounds.len() / 2) as u32,
        width: width(regs),
    };
    let at = Pair {
        u: grid.first(b),
        d: grid.writes(b),
        regs,
    };
    clear_at(bits, at.u, grid.width);
    clear_at(bits, at.d, grid.width);
    block_sets(*code, bits, writers, b.start(bounds), b.past(bounds), at);
}

// The rows of every block, the last one first. What lies behind all rows is left as it was.
pub fn all_rows(bits: &mut [u64], writers: &mut [u64], code: &Code<'_>, bounds: &[u32], regs: usize)
    requires { Blocks bounds.now code.now.recs.now × Coded code.now regs × (4 * (length bounds.now / 2) * width regs ≤ length bits.old) }
    ensures by_index { (b : ℕ) → b < length bounds.now / 2 → Rows (drawn bounds.now code.now.recs.now code.now.ops.now [] []) (width regs) b bits.new }
    ensures bits_len_unchanged { length bits.new ≡ length bits.old }
    ensures by_index_2 { (i : ℕ) → 3 * (length bounds.now / 2) * width regs + width regs ≤ i → get_or bits.new i 0 ≡ get_or bits.old i 0 }
    ensures writers { writers.new ≡ notes code.now.recs.now writers.old (concat (map (places (drawn bounds.now code.now.recs.now code.now.ops.now [] [])) (upto (length bounds.now / 2)))) }
{
    let n = (bounds.len() / 2) as u32;
    for k in (0..n).rev() {
        block_rows(bits, writers, code, bounds, regs, BlockId::known(k, n));
    }
}
