// What the walk goes by, as values: the words of a position; which records and positions are walked.
ghost use Rattle.std.specs.Prelude.{◌≡◌, ◌+◌, ◌*◌, ◌≤◌, length};
ghost use Rattle.rename.specs.Runs.{marked, Parted};

use inst::index::Reg;
use position::{DEF, MARK, NEW, PLACE};

// A position of x: its mark, the register that it writes, and the word of the one that it gets in its place. That one is no `Reg`:
// it is written, and nothing goes by it.
#[derive(Clone, Copy, Debug, PartialEq, Eq)]
pub struct Part {
    pub mark: u32,
    pub def: Option<Reg>,
    pub new: u32,
}

impl Part {
    // Is it a member?
    pub(crate) fn goes(self) -> bool
        ensures { result ≡ marked self.mark }
    {
        self.mark != 0
    }
}

// Records, from one up to another.
#[derive(Clone, Copy, Debug, PartialEq, Eq)]
pub struct Span {
    pub from: usize,
    pub past: usize,
}

// What is walked: x's first `inside` records from `from` on; then the chain's other positions, of `places` in all, whose words are w; and
// the target's records. (No range of records for x: it is the count that the positions go by.)
#[derive(Clone, Copy)]
pub struct Walk<'a> {
    pub from: usize,
    pub inside: usize,
    pub places: usize,
    pub target: Span,
    pub w: &'a [u32],
}

// Position p, where names has `count` words.
pub fn part_at(w: &[u32], p: usize, count: usize) -> Part
    requires { 10 * p + 10 ≤ length w.now }
    ensures { Parted w.now p count result.mark result.def result.new }
{
    let b = PLACE * p;
    let def = Reg::new(w[b + DEF], count);
    Part {
        mark: w[b + MARK],
        def,
        new: w[b + NEW],
    }
}
