// The move (01, "The move"), `apply` of 000: `needs` counts what it takes and writes nothing of the picture, so that Short
// leaves the state of the last round; `apply` then does it in place.
#![tactic(auto)]

pub mod moves; // the move as a value
pub mod needs; // what it takes

ghost use Rattle.std.specs.Prelude.{◌≡◌, length, Bool, List};
ghost use Rattle.model.specs.Analyse.{Fact};
ghost use Rattle.model.specs.Move.{apply};
ghost use Rattle.apply.specs.Apply.{Rest, picture, plan, Stands, Given, Asks, Fits, Holds, Vias};

use crate::moves::Move;
use crate::needs::Counts;
use inst::table::Table;
use mover::bounds::move_bounds;
use mover::marks::count;
use mover::moving::move_all;
use pool::types::add_types;
use rename::all::rename_all;

// Move m, where c registers and operands are in use. (The slices that are written stay apart: a struct of `&mut` slices cannot be lent
// on twice.)
pub fn apply(
    t: &Table,
    bounds: &mut [u32],
    recs: &mut [u32],
    locs: &mut [u32],
    vias: &mut [u32],
    types: &mut [u32],
    ops: &mut [u32],
    names: &mut [u64],
    w: &[u32],
    m: Move,
    c: Counts,
)
    requires t_value { Asks m.from.0 m.into.0 m.inside m.places c.regs c.opers (length names.old) (length locs.old) bounds.old recs.old types.old ops.old w.now }
    requires fits { Fits m.from.0 m.into.0 m.inside m.places c.regs c.opers bounds.old recs.old types.old ops.old w.now × Vias locs.old vias.old }
    ensures { (rest : Rest) (run : List Fact) (set : List Bool) → let P = picture bounds.old recs.old locs.old vias.old types.old c.regs ops.old c.opers rest in let a = plan m.from.0 m.into.0 run set in Stands P a m.inside m.places w.now → Given P a m.inside w.now → Holds (apply P a) bounds.new recs.new locs.new vias.new types.new ops.new }
{
    let walk = m.walk(bounds, w);
    add_types(types, c.regs, w, m.inside);
    rename_all(t, recs, &walk, ops, c.opers, names);
    move_all(recs, locs, vias, w, walk.from, m.inside, walk.target.from);
    move_bounds(bounds, m.from, m.into, count(w, m.inside));
}
