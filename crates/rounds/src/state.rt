// Where the call stands (01, "A round", "At most 8 rounds"), and what a round makes of that.
ghost use Rattle.std.specs.Prelude.{◌≡◌, ◌<◌, length};
ghost use Rattle.model.specs.Pass.{most_rounds};
ghost use Rattle.rounds.specs.State.{first_at, with_line, Advancing, gone, advanced};

use chains::pass::Sink;
use model::{Answer, Used};
use oneround::weigh::{Line, Step};
use sizes::Sizes;
use std::ops::ControlFlow;

// The answer, and a line of six words for each round: its number, from, into, moved, then registers and operands in use. Zeros behind.
// They are words and no eight structs of six: `model`'s lines are lists of words of any length, which the contract sets end to end.
#[derive(Clone, Copy)]
pub struct Ran {
    pub answer: Answer,
    pub lines: [u32; 48],
}

// Where a round is to be tried: rounds done; sizes, with the registers and operands in use; the lines so far.
#[derive(Clone, Copy)]
pub struct At {
    pub rounds: u32,
    pub sizes: Sizes,
    pub lines: [u32; 48],
}

impl At {
    // Before the first round.
    pub fn first(sizes: Sizes) -> Self
        ensures { result ≡ first_at sizes }
    {
        At {
            rounds: 0,
            sizes,
            lines: [0u32; 48],
        }
    }
}

// The lines with that of round i + 1.
#[tactic(auto, using(words::proofs::Copying::put_sets))]
fn put_line(lines: [u32; 48], i: u32, l: Line) -> [u32; 48]
    requires { (i < most_rounds) × (length lines ≡ 48) }
    ensures { result ≡ with_line i l lines }
{
    let a = 6 * (i as usize);
    let mut r = lines;
    let m = l.moved;
    r[a..a + 6].copy_from_slice(&[
        i + 1,
        m.from.number(),
        m.into.number(),
        m.moved,
        l.registers,
        l.operands,
    ]);
    r
}

// After a round's move l: on, or at the end after the last round.
fn gone(m: At, l: Line) -> ControlFlow<Ran, At>
    requires { Advancing m }
    ensures { result ≡ gone m l }
{
    let rounds = m.rounds + 1;
    let lines = put_line(m.lines, m.rounds, l);
    if rounds < Sink::ROUNDS {
        let sizes = Sizes {
            regs: l.registers,
            opers: l.operands,
            ..m.sizes
        };
        return ControlFlow::Continue(At {
            rounds,
            sizes,
            lines,
        });
    }
    let answer = Answer::Done(Used {
        rounds,
        registers: l.registers,
        operands: l.operands,
    });
    ControlFlow::Break(Ran { answer, lines })
}

// After a round that came to r: where the next one is to be tried, or what the call comes to.
pub fn advance(m: At, r: Step) -> ControlFlow<Ran, At>
    requires { Advancing m }
    ensures { result ≡ advanced m r }
{
    let used = Used {
        rounds: m.rounds,
        registers: m.sizes.regs,
        operands: m.sizes.opers,
    };
    let answer = match r {
        Step::Goes(l) => return gone(m, l),
        Step::Short => Answer::Short(used),
        Step::Ends => Answer::Done(used),
    };
    let lines = m.lines;
    ControlFlow::Break(Ran { answer, lines })
}
