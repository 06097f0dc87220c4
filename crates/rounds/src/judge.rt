// Before anything is tried (01, "The call"): refusals, then gates. Nothing is changed.
ghost use Rattle.std.specs.Prelude.{◌≡◌};
ghost use Rattle.rounds.specs.Judge.{Judged};

use acceptance::accept;
use acceptance::gates::gated;
use acceptance::lent::Lent;
use inst::table::Table;
use model::{Answer, Used};
use sizes::Room;
use std::ops::ControlFlow;

// Breaks with the answer, where no round is tried.
#[tactic(auto, using(crate::proofs::Opening::judge_refused))]
pub fn judge(t: &Table, lent: Lent, room: Room) -> ControlFlow<Answer, ()>
    ensures { Judged lent.entry room result }
{
    if let Err(cause) = accept(lent, room, t) {
        return ControlFlow::Break(Answer::Refused(cause));
    }
    let used = lent.used;
    if gated(lent.bounds, lent.recs, lent.locs, used.regs) {
        return ControlFlow::Break(Answer::Done(Used {
            rounds: 0,
            registers: used.regs,
            operands: used.opers,
        }));
    }
    ControlFlow::Continue(())
}
