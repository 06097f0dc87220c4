// What the move of a round comes to (01, "A round" and "Answers"): it fits the room that is lent, it needs more, or there is none. Of
// what is lent, only work words are written.
ghost use Rattle.std.specs.Prelude.{◌≡◌, ◌≤◌};
ghost use Rattle.rename.specs.Names.{Exists};
ghost use Rattle.oneround.specs.Weigh.{Needing, Needed, IsStepped, Ready, Weighed};

use apply::moves::Move;
use apply::needs::{Counts, needs};
use cfg::body::Body;
use inst::code::Code;
use model::CHAIN_WORDS;
use sizes::at_stamps;

// A move that fits, with the registers and operands in use after it.
#[derive(Clone, Copy)]
pub struct Line {
    pub moved: Move,
    pub registers: u32,
    pub operands: u32,
}

// What a round comes to: no move is left; one fits; one needs more room than is lent.
#[derive(Clone, Copy)]
pub enum Step {
    Ends,
    Goes(Line),
    Short,
}

// What move mv needs: the registers and operands in use after it. Its new registers are then in the words of its positions.
fn count_needs(
    body: &Body<'_>,
    types: &[u32],
    work64: &mut [u64],
    work32: &mut [u32],
    mv: Move,
) -> Counts
    requires { Exists (λ n. Needing body.now.func.bounds.now body.now.func.recs.now types.now body.now.ops.now body.now.sizes work64.old work32.old n mv) }
    ensures { Needed body.now.func.bounds.now body.now.func.recs.now types.now body.now.ops.now body.now.sizes work64.old work32.old mv work64.new work32.new result }
{
    let code = Code {
        table: body.func.table,
        recs: body.func.recs,
        ops: body.ops,
    };
    let s = body.sizes;
    let a = at_stamps(s);
    let c = Counts {
        regs: s.regs,
        opers: s.opers as usize,
    };
    needs(
        &code,
        body.func.bounds,
        types,
        &mut work64[a..a + s.lent],
        &mut work32[..CHAIN_WORDS],
        mv,
        c,
    )
}

// Does what move mv needs fit the room that is lent?
fn step_of(mv: Move, c: Counts, lent: usize, room: usize) -> Step
    requires { room ≤ 131072 }
    ensures { IsStepped mv c lent room result }
{
    if lent < c.regs as usize {
        return Step::Short;
    }
    if room < c.opers {
        return Step::Short;
    }
    Step::Goes(Line {
        moved: mv,
        registers: c.regs,
        operands: c.opers as u32,
    })
}

// What the round comes to, of which r is the move, if there is one.
pub fn weigh(
    body: &Body<'_>,
    types: &[u32],
    work64: &mut [u64],
    work32: &mut [u32],
    r: Option<Move>,
) -> Step
    requires { Ready body.now.func.bounds.now body.now.func.recs.now types.now body.now.ops.now body.now.sizes work64.old work32.old r }
    ensures { Weighed body.now.func.bounds.now body.now.func.recs.now types.now body.now.ops.now body.now.sizes work64.old work32.old r work64.new work32.new result }
{
    let Some(mv) = r else {
        return Step::Ends;
    };
    let c = count_needs(body, types, work64, work32, mv);
    step_of(mv, c, body.sizes.lent, body.ops.len())
}
