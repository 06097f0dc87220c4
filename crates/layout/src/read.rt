// Reading a picture from lent bytes (document 01, "One listing whole"; specs/Layout): whether they can be read, the eight counts, and
// each part.
ghost use Rattle.std.specs.Prelude.{◌≡◌, true, false, ◌+◌, ◌*◌, ◌≤◌, length, get_or, MatchOption};
ghost use Rattle.words.specs.Bytes.{words_of};
ghost use Rattle.layout.specs.Layout.{counts, held, readable, part_of, room};

use crate::{Counts, HEAD_BYTES, Part};
use words::bytes::{get_words, word_at};

// Word i of the bytes.
#[tactic(auto, using(crate::proofs::Reading::word_number))]
fn count(bytes: &[u8], i: usize) -> u32
    requires { 4 * i + 4 ≤ length bytes.now }
    ensures { result ≡ get_or (words_of bytes.now) i 0 }
{
    word_at(bytes, 4 * i)
}

// The counts: the first eight words, in the order of `Counts::words`.
pub fn counts(bytes: &[u8]) -> Counts
    requires { 32 ≤ length bytes.now }
    ensures { result ≡ counts (words_of bytes.now) }
{
    Counts {
        blocks: count(bytes, 0),
        insts: count(bytes, 1),
        registers: count(bytes, 2),
        operands: count(bytes, 3),
        pairs: count(bytes, 4),
        targets: count(bytes, 5),
        replay: count(bytes, 6),
        vias: count(bytes, 7),
    }
}

// Bytes that are a picture within the program's sizes, neither cut short nor longer than their counts say, and those counts.
#[derive(Clone, Copy)]
pub struct Readable<'a> {
    pub bytes: &'a [u8],
    pub counts: Counts,
    ghost can: { readable bytes.now ≡ true },
    ghost counted: { counts ≡ held bytes.now },
}

impl<'a> Readable<'a> {
    // These bytes, if they can be read.
    pub fn new(bytes: &'a [u8]) -> Option<Readable<'a>>
        ensures { MatchOption result (readable bytes.now ≡ false) (λ r. r.bytes.now ≡ bytes.now) }
    {
        if bytes.len() < HEAD_BYTES {
            return None;
        }
        let counts = counts(bytes);
        if counts.within() && bytes.len() == 4 * counts.end() {
            return Some(Readable { bytes, counts });
        }
        None
    }

    // A part, then zeros: as much of them as `out` takes.
    pub fn get(self, part: Part, out: &mut [u32])
        ensures { out.new ≡ room (length out.old) (part_of (words_of self.entry.bytes.now) part) }
    {
        let n = self.counts.words_in(part).min(out.len());
        let (head, rest) = out.split_at_mut(n);
        get_words(self.bytes, 4 * self.counts.start(part), head);
        rest.fill(0);
    }
}
