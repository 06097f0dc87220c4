// The plain types that contracts name, and the paper's numbers that several crates use. What the pass is to do is defined in specs/, one
// file for each section of document 01, and proofs/ holds what is proved of those definitions.
#![tactic(auto)]

ghost use Rattle.std.specs.Prelude.{◌≡◌, ◌≤◌};
ghost use Rattle.model.specs.Numbered.{number_of};
ghost use Rattle.model.specs.Pass.{number, rounds};

// What a slot holds that names no register (document 01, "The call": "absent"). A word of the picture, and of the lists and work words
// that C lends, so it is no `Option`; code that only passes a register on says `Option<Reg>`.
pub const ABSENT: u32 = 4294967295;

// How many positions a chain may have, and so how many facts are lent at least (document 01, "A round", "What changes shape").
pub const RECORDS: usize = 800;

// The words of the 32-bit slice that belong to a chain, ten a position (document 01, "Port order and sizes").
pub const CHAIN_WORDS: usize = 10 * RECORDS;

// What was done, and what is in use then: rounds, registers, operands.
#[derive(Clone, Copy, PartialEq, Eq, Debug)]
pub struct Used {
    pub rounds: u32,
    pub registers: u32,
    pub operands: u32,
}

// Why a picture is refused: the causes of document 01's table ("The call"), in its order, but for 11, which request 2026-11 took away.
// Where several are present, the first is given.
#[derive(Clone, Copy, PartialEq, Eq, Debug)]
pub enum Refusal {
    Large, // more of anything than there may be, or more in use than lent
    Uneven, // records, vias, blocks or case pairs are not as many words as they must be
    Blocks, // blocks do not lie end to end
    Kind, // a kind, form or scalars that are not allowed
    Slot, // a slot is no register in use, or wrongly absent or present
    List, // a list where there is none, or past the operands in use, or an operand in use that is no register
    Branch, // a branch or case target is no block, or a case pair is empty or past its targets
    Cat, // the list of a Cat is over 33
    Type, // a type in use is above 7
    Work, // the work slices, or the list of records, are too short
}

impl Refusal {
    // The number of its row, from 1 on.
    pub fn number(self) -> u32
        ensures { result ≡ number_of self }
    {
        match self {
            Refusal::Large => 1,
            Refusal::Uneven => 2,
            Refusal::Blocks => 3,
            Refusal::Kind => 4,
            Refusal::Slot => 5,
            Refusal::List => 6,
            Refusal::Branch => 7,
            Refusal::Cat => 8,
            Refusal::Type => 9,
            Refusal::Work => 10,
        }
    }
}

// The answer of the call (document 01, "The call"): no move is left or the rounds are up; the next move needs more room than
// is lent; or a refusal. specs/Pass gives the paper's number and values for each case.
#[derive(Clone, Copy, PartialEq, Eq, Debug)]
pub enum Answer {
    Done(Used),
    Short(Used),
    Refused(Refusal),
}

impl Answer {
    // The rounds done; a refused picture had none.
    pub fn rounds(self) -> u32
        ensures { result ≡ rounds self }
    {
        match self {
            Answer::Done(u) | Answer::Short(u) => u.rounds,
            Answer::Refused(_) => 0,
        }
    }

    // The number that the host is given for it: the rounds, 100 more for short, 200 and the number of a refusal.
    pub fn number(self) -> u32
        requires { number self ≤ 300 }
        ensures { result ≡ number self }
    {
        match self {
            Answer::Done(u) => u.rounds,
            Answer::Short(u) => 100 + u.rounds,
            Answer::Refused(r) => 200 + r.number(),
        }
    }
}
