// The walk that renames (01, "The move"): along x, whose members are made anew, on through the chain's other blocks, whose writes
// are all kept, and through the target, whose reads are renamed until it writes the register itself. (The three slices that are
// written stand side by side: a struct of them that is lent on in each turn gets no proof.)
ghost use Rattle.std.specs.Prelude.{◌≡◌, true, ◌-◌, length};
ghost use Rattle.inst.specs.Index.{word_of, Among};
ghost use Rattle.model.specs.Picture.{absent};
ghost use Rattle.words.specs.Lists.{range};
ghost use Rattle.rename.specs.Names.{Exists, named};
ghost use Rattle.rename.specs.Runs.{Run, Pass, Passed, AskX, PassedX, AskRest, PassedRest, Owned, AskOwn, marked, target_jobs};

use crate::names::{forget, put};
use crate::parts::{Part, Span, Walk, part_at};
use crate::remake::remake;
use crate::slots::Anew;
use inst::code::{Code, Slots};
use inst::record::Record;
use inst::table::Table;
use model::ABSENT;
use position::PLACE;

// Record q of x, which is position k: a kept one's writes keep their names; a member is made anew, and the register that it wrote has
// a new name.
fn pass(
    t: &Table,
    recs: &mut [u32],
    q: usize,
    ops: &mut [u32],
    o: usize,
    names: &mut [u64],
    k: Part,
) -> usize
    requires { Exists (λ u. Pass q u o names.old (marked k.mark) (word_of k.def) k.new recs.old ops.old) × Among (length names.old) k.def }
    ensures { Passed q o (marked k.mark) (word_of k.def) k.new names.old names.new recs.old recs.new ops.old ops.new result }
{
    let rec = Record { recs, p: q };
    let does = t.row(rec.kind(), rec.form()).uses();
    if !k.goes() {
        let slots = Slots { recs, p: q, does };
        forget(&slots, names);
        return o;
    }
    let anew = Anew { names, new: k.new };
    let r = remake(recs, q, does, ops, o, anew);
    put(names, k.def, k.new);
    r
}

// The positions of x, where u operands are in use. Returns how many are then.
pub fn pass_all(
    t: &Table,
    recs: &mut [u32],
    walk: &Walk,
    ops: &mut [u32],
    u: usize,
    names: &mut [u64],
) -> usize
    requires { AskX u walk.now.from walk.now.inside names.old recs.old ops.old walk.now.w.now }
    ensures { PassedX u walk.now.from walk.now.inside names.old names.new recs.old recs.new ops.old ops.new walk.now.w.now result }
{
    let mut n = u;
    for p in 0..walk.inside {
        let k = part_at(walk.w, p, names.len());
        n = pass(t, recs, walk.from + p, ops, n, names, k);
    }
    n
}

// The chain's other positions, all kept.
pub fn skip_all(code: &Code, walk: &Walk, names: &mut [u64])
    requires { Exists (λ u. AskRest u walk.now.inside walk.now.places names.old code.now.recs.now walk.now.w.now) }
    ensures { PassedRest walk.now.inside (walk.now.places - walk.now.inside) names.old names.new code.now.recs.now walk.now.w.now }
{
    for p in walk.inside..walk.places {
        forget(&code.slots(walk.w[PLACE * p] as usize), names);
    }
}

// Record q of the target: its reads are renamed, and then what it writes keeps its name.
fn own(t: &Table, recs: &mut [u32], q: usize, ops: &mut [u32], o: usize, names: &mut [u64]) -> usize
    requires { Exists (λ u. Pass q u o names.old true absent absent recs.old ops.old) }
    ensures { Owned q o names.old names.new recs.old recs.new ops.old ops.new result }
{
    let rec = Record { recs, p: q };
    let does = t.row(rec.kind(), rec.form()).uses();
    let anew = Anew { names, new: ABSENT };
    let r = remake(recs, q, does, ops, o, anew);
    let slots = Slots { recs, p: q, does };
    forget(&slots, names);
    r
}

// The target's records s, where o operands are in use. Returns how many are then.
pub fn own_all(
    t: &Table,
    recs: &mut [u32],
    s: Span,
    ops: &mut [u32],
    o: usize,
    names: &mut [u64],
) -> usize
    requires { Exists (λ u. AskOwn u o s.from s.past names.old recs.old ops.old) }
    ensures { Run o (range s.from (s.past - s.from)) (target_jobs (named names.old) recs.old s.from s.past) recs.old recs.new ops.old ops.new result }
{
    let mut n = o;
    for q in s.from..s.past {
        n = own(t, recs, q, ops, n, names);
    }
    n
}
