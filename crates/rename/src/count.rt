// The counting run (01, "Answers": Short is given before anything of the round is written): how many operands the walk of
// walk.rt would append. Nothing but names is written. (It is no second use of that walk. What writes there as a struct of `&mut` slices
// that is lent on in each turn gets no proof. As a closure that one loop calls, it does, and so does the loop: but each caller then has
// to show for every state that the closure may be in that the call can be made, and that each slice is still the one that was lent.)
ghost use Rattle.std.specs.Prelude.{◌≡◌, ◌+◌, ◌*◌, ◌≤◌, length};
ghost use Rattle.model.specs.Picture.{inst, absent};
ghost use Rattle.model.specs.Move.{more_of, appended};
ghost use Rattle.inst.specs.Index.{word_of, Among};
ghost use Rattle.rename.specs.Names.{Exists, job, named};
ghost use Rattle.rename.specs.Runs.{marked, target_jobs};
ghost use Rattle.rename.specs.Counts.{CountAsk, Counted, CountedOwn, CountX, CountedX, CountOwn};

use crate::lists::changes;
use crate::names::{forget, put};
use crate::parts::{Part, Span, Walk, part_at};
use inst::code::Code;

// How many operands record q would append.
fn count_list(code: &Code, q: usize, names: &[u64]) -> usize
    requires { Exists (λ u. CountAsk q u names.now code.now.recs.now code.now.ops.now) }
    ensures { (result ≡ length (more_of code.now.ops.now (job (inst code.now.recs.now q) names.now absent))) × (result ≤ 4294967295) }
{
    let list = code.list(q);
    if changes(list, names) {
        return list.len();
    }
    0
}

// Record q of x, which is position k.
fn count_pass(code: &Code, q: usize, names: &mut [u64], k: Part) -> usize
    requires { Exists (λ u. CountAsk q u names.old code.now.recs.now code.now.ops.now) × Among (length names.old) k.def }
    ensures { Counted q (marked k.mark) (word_of k.def) k.new names.old names.new code.now.recs.now code.now.ops.now result }
{
    if !k.goes() {
        forget(&code.slots(q), names);
        return 0;
    }
    let r = count_list(code, q, names);
    put(names, k.def, k.new);
    r
}

// The positions of x.
pub fn count_x(code: &Code, walk: &Walk, names: &mut [u64]) -> usize
    requires { Exists (λ u. CountX u walk.now.from walk.now.inside names.old code.now.recs.now code.now.ops.now walk.now.w.now) }
    ensures { CountedX walk.now.from walk.now.inside names.old names.new code.now.recs.now code.now.ops.now walk.now.w.now result }
{
    let mut n = 0;
    for p in 0..walk.inside {
        let k = part_at(walk.w, p, names.len());
        n += count_pass(code, walk.from + p, names, k);
    }
    n
}

// Record q of the target.
fn count_own(code: &Code, q: usize, names: &mut [u64]) -> usize
    requires { Exists (λ u. CountAsk q u names.old code.now.recs.now code.now.ops.now) }
    ensures { CountedOwn q names.old names.new code.now.recs.now code.now.ops.now result }
{
    let r = count_list(code, q, names);
    forget(&code.slots(q), names);
    r
}

// The target's records s, behind n operands that were counted before.
pub fn count_target(code: &Code, s: Span, names: &mut [u64], n: usize) -> usize
    requires { Exists (λ u. CountOwn u s.from s.past names.old code.now.recs.now code.now.ops.now) × (n ≤ 4294967295 * 65536) }
    ensures { (result ≡ n + length (appended code.now.ops.now (target_jobs (named names.old) code.now.recs.now s.from s.past))) × (result ≤ 4294967295 * 131072) }
{
    let mut k = n;
    for q in s.from..s.past {
        k += count_own(code, q, names);
    }
    k
}
