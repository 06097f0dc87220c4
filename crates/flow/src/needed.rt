// The registers needed elsewhere than in the target (01, "The legal set", rule 2: "live into the other branch, nor live out of the
// target unless written there"), as a row of bits behind the rows of live-in and of what each block writes.
ghost use Rattle.std.specs.Prelude.{◌≡◌, ◌+◌, ◌*◌, ◌≤◌, ◌<◌, length};
ghost use Rattle.cfg.specs.Func.{blocks_of};
ghost use Rattle.defuse.specs.Sets.{Room};
ghost use Rattle.flow.specs.Needed.{Fits, Word, Put, Needed};

use crate::grid::Grid;
use crate::live::gather;
use cfg::graph::Func;
use cfg::succs::Succs;
use inst::index::BlockId;

// Word i of the row. `succs` are the target's.
fn needed_word(
    bits: &[u64],
    succs: Succs<'_>,
    grid: Grid,
    into: BlockId,
    other: BlockId,
    i: usize,
) -> u64
    requires { Room grid.blocks grid.width bits.now × (into.0 < grid.blocks) × (other.0 < grid.blocks)
        × (succs.count ≡ grid.blocks) × (i < grid.width) }
    ensures { Word bits.now succs.entry.list.now grid.blocks grid.width into.0 other.0 i result }
{
    let live = bits[grid.live(other) + i];
    let writes = bits[grid.writes(into) + i];
    let out = gather(bits, succs, grid, i);
    live | (out & !writes)
}

// The whole row.
fn put_row(work: &mut [u64], succs: Succs<'_>, grid: Grid, into: BlockId, other: BlockId)
    requires { Fits grid.blocks grid.width into.0 other.0 work.old × (succs.count ≡ grid.blocks) }
    ensures { Put work.old succs.entry.list.now grid.blocks grid.width into.0 other.0 work.new }
{
    let (rows, row) = work.split_at_mut(grid.needed());
    for (i, word) in row[..grid.width].iter_mut().enumerate() {
        *word = needed_word(rows, succs, grid, into, other, i);
    }
}

// The row of w words behind the 2 n rows: the registers needed elsewhere than in block `into`, if `other` is the other branch.
pub fn put_needed(func: &Func<'_>, work: &mut [u64], w: usize, into: BlockId, other: BlockId)
    requires { (into.0 < blocks_of func.now) × (other.0 < blocks_of func.now)
        × (blocks_of func.now * w + blocks_of func.now * w + w ≤ length work.old) }
    ensures { Needed func.now.bounds.now func.now.recs.now func.now.pairs.now func.now.targets.now w into.0 other.0 work.old work.new }
{
    let grid = Grid {
        blocks: func.blocks(),
        width: w,
    };
    put_row(work, func.succs(into), grid, into, other);
}
