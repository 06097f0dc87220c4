// How many words each part of a picture has, and where it begins (document 01, "One listing whole"; specs/Layout).
ghost use Rattle.std.specs.Prelude.{◌≡◌, true, [], ◌∷◌};
ghost use Rattle.layout.specs.Layout.{within, words_in, before, start, at_end};

use crate::{BLOCKS, Counts, HEAD, INSTS, OPERANDS, PAIRS, Part, REGISTERS, REPLAY, TARGETS, VIAS};

impl Part {
    // The part before it; the first one lies behind the counts.
    fn before(self) -> Option<Part>
        ensures { result ≡ before self }
    {
        match self {
            Part::Bounds => None,
            Part::Recs => Some(Part::Bounds),
            Part::Locs => Some(Part::Recs),
            Part::Vias => Some(Part::Locs),
            Part::Types => Some(Part::Vias),
            Part::Ops => Some(Part::Types),
            Part::Pairs => Some(Part::Ops),
            Part::Targets => Some(Part::Pairs),
            Part::Replay => Some(Part::Targets),
        }
    }
}

impl Counts {
    // The eight as the words that a picture begins with.
    pub(crate) fn words(self) -> [u32; HEAD]
        ensures { result ≡ self.blocks ∷ self.insts ∷ self.registers ∷ self.operands ∷ self.pairs ∷ self.targets ∷ self.replay ∷ self.vias ∷ [] }
    {
        [
            self.blocks,
            self.insts,
            self.registers,
            self.operands,
            self.pairs,
            self.targets,
            self.replay,
            self.vias,
        ]
    }

    // Whether they are within the program's sizes.
    pub(crate) fn within(self) -> bool
        ensures { result ≡ within self }
    {
        self.blocks as usize <= BLOCKS
            && self.insts as usize <= INSTS
            && self.registers as usize <= REGISTERS
            && self.operands as usize <= OPERANDS
            && self.pairs as usize <= PAIRS
            && self.targets as usize <= TARGETS
            && self.replay as usize <= REPLAY
            && self.vias as usize <= VIAS
    }

    // How many words a part has.
    pub fn words_in(self, part: Part) -> usize
        ensures { result ≡ words_in part self }
    {
        match part {
            Part::Bounds => 2 * self.blocks as usize,
            Part::Recs => 16 * self.insts as usize,
            Part::Locs => self.insts as usize,
            Part::Vias => self.vias as usize,
            Part::Types => self.registers as usize,
            Part::Ops => self.operands as usize,
            Part::Pairs => self.pairs as usize,
            Part::Targets => self.targets as usize,
            Part::Replay => self.replay as usize,
        }
    }

    // The word at which a part begins: behind the counts, or where the one before ends.
    pub(crate) fn start(self, part: Part) -> usize
        requires { within self ≡ true }
        ensures { result ≡ start part self }
    {
        match part.before() {
            None => HEAD,
            Some(p) => self.start(p) + self.words_in(p),
        }
    }

    // The word behind the last part.
    pub(crate) fn end(self) -> usize
        requires { within self ≡ true }
        ensures { result ≡ at_end self }
    {
        self.start(Part::Replay) + self.words_in(Part::Replay)
    }
}
