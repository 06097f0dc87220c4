// The whole walk, counted or done (01, "The move"): x, the rest of the chain, the target.
ghost use Rattle.std.specs.Prelude.{◌≡◌, ◌+◌, ◌*◌, ◌≤◌, length};
ghost use Rattle.model.specs.Move.{appended};
ghost use Rattle.rename.specs.Names.{Exists};
ghost use Rattle.rename.specs.Runs.{Run};
ghost use Rattle.rename.specs.All.{AskAll, all_places, all_jobs};

use crate::count::{count_target, count_x};
use crate::names::clear;
use crate::parts::Walk;
use crate::walk::{own_all, pass_all, skip_all};
use inst::code::Code;
use inst::table::Table;

// How many operands the move would append.
pub fn count_all(code: &Code, walk: &Walk, names: &mut [u64]) -> usize
    requires { Exists (λ u. AskAll u walk.now.from walk.now.inside walk.now.places walk.now.target.from walk.now.target.past (length names.old) code.now.recs.now code.now.ops.now walk.now.w.now) }
    ensures { (result ≡ length (appended code.now.ops.now (all_jobs walk.now.w.now code.now.recs.now walk.now.from walk.now.inside walk.now.places walk.now.target.from walk.now.target.past))) × (result ≤ 4294967295 * 131072) }
{
    clear(names);
    let k = count_x(code, walk, names);
    skip_all(code, walk, names);
    count_target(code, walk.target, names, k)
}

// The members and the target's own records made anew where they lie, where u operands are in use. Returns how many are then.
pub fn rename_all(
    t: &Table,
    recs: &mut [u32],
    walk: &Walk,
    ops: &mut [u32],
    u: usize,
    names: &mut [u64],
) -> usize
    requires t_value { AskAll u walk.now.from walk.now.inside walk.now.places walk.now.target.from walk.now.target.past (length names.old) recs.old ops.old walk.now.w.now }
    requires past_in_bounds { u + length (appended ops.old (all_jobs walk.now.w.now recs.old walk.now.from walk.now.inside walk.now.places walk.now.target.from walk.now.target.past)) ≤ length ops.old }
    ensures { Run u (all_places walk.now.w.now walk.now.from walk.now.inside walk.now.target.from walk.now.target.past) (all_jobs walk.now.w.now recs.old walk.now.from walk.now.inside walk.now.places walk.now.target.from walk.now.target.past) recs.old recs.new ops.old ops.new result }
{
    clear(names);
    let o = pass_all(t, recs, walk, ops, u, names);
    let code = Code {
        table: t,
        recs,
        ops,
    };
    skip_all(&code, walk, names);
    own_all(t, recs, walk.target, ops, o, names)
}
