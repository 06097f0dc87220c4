// The table of roles (01, "How to write each place": "the roles of all 101 kinds become a fixed table"): for each kind and form a word
// of what the slots do and of what else is told of the kind, as specs/Table.antt lays it down. Its words are printed (roles.rt). It is
// made once, at the entry, and lent: a const array is built anew on the stack at each call that indexes it. (A `static` was tried: it
// proves, but a pass over records that are not plain takes 2% more instructions with it, and the pictures that grow are at the goal of
// 3 times the Rust with nothing to spare, docs/SPEED.md. So the table stays lent.)
ghost use Rattle.std.specs.Prelude.{◌≡◌, ◌<◌, ◌*◌, ◌/◌, ◌%◌, eqb};
ghost use Rattle.model.specs.Kinds.{kind_of};
ghost use Rattle.inst.specs.Table.{packed, Printed, uses, has_list, shape, allowed, arm, quiet, two_bits, three_bits};
ghost use Rattle.inst.specs.Shape.{shape_of};

use crate::kinds::KINDS;
use crate::roles::ROWS;

// How many words a kind has, for forms 0 to 6 and for any other; and how many there are.
const FORMS: usize = 8;

const WORDS: usize = FORMS * KINDS;

// The table itself: no value of this type has other words than the rule gives.
#[derive(Clone, Copy)]
pub struct Table {
    words: [u32; WORDS],
    ghost printed: { Printed words },
}

impl Table {
    pub fn new() -> Table {
        Table { words: ROWS }
    }

    // The row of a kind at a form.
    pub fn row(&self, kind: u32, form: u32) -> Row
        requires { kind < 101 }
        ensures { result.0 ≡ packed (kind_of kind) form }
    {
        Row(self.words[FORMS * kind as usize + (form as usize).min(FORMS - 1)])
    }
}

// How a record's successors lie, if it ends a block: there are none, or they are the words of a Br or of a CondBr, or the targets
// of a Case.
#[derive(Clone, Copy, PartialEq, Eq, Debug)]
pub enum Shape {
    Stops,
    Goes,
    Parts,
    Cases,
}

// What the table has of a kind at a form, in one word as specs/Table.antt lays it down.
#[derive(Clone, Copy, PartialEq, Eq, Debug)]
pub struct Row(u32);

impl Row {
    // What each slot does, 4 bits a slot, of which the lower two are `two_bits` and the lower three `three_bits`.
    pub fn uses(self) -> u32
        ensures { result ≡ uses self.0 }
    {
        self.0 % 1048576
    }

    // Does the kind have a list?
    pub fn has_list(self) -> bool
        ensures { result ≡ has_list self.0 }
    {
        self.0 / 4194304 % 2 == 1
    }

    // How the successors of its records lie.
    pub fn shape(self) -> Shape
        ensures { result ≡ shape_of (shape self.0) }
    {
        match self.0 / 1048576 % 4 {
            0 => Shape::Stops,
            1 => Shape::Goes,
            2 => Shape::Parts,
            _ => Shape::Cases,
        }
    }

    // Are there none?
    pub fn stops(self) -> bool
        ensures { result ≡ eqb (shape self.0) 0 }
    {
        matches!(self.shape(), Shape::Stops)
    }

    // May its records have the form?
    pub fn allowed(self) -> bool
        ensures { result ≡ allowed self.0 }
    {
        self.0 / 8388608 % 2 == 1
    }

    // The number of the arm of `analyse` that takes it.
    pub fn arm(self) -> u32
        ensures { result ≡ arm self.0 }
    {
        self.0 / 16777216 % 32
    }

    // Does it stand in `writes_nothing`?
    pub fn quiet(self) -> bool
        ensures { result ≡ quiet self.0 }
    {
        self.0 / 536870912 % 2 == 1
    }
}

// Of five slots what slot k does: 0 nothing, 1 it is read, 2 it is written.
pub fn two_bits(uses: u32, k: usize) -> u32
    requires { k < 5 }
    ensures { result ≡ two_bits uses k }
{
    (uses >> (4 * k)) % 4
}

// That, with 4 where the slot may be absent.
pub fn three_bits(uses: u32, k: usize) -> u32
    requires { k < 5 }
    ensures { result ≡ three_bits uses k }
{
    (uses >> (4 * k)) % 8
}
