// Writing a picture at the head of lent bytes (document 01, "One listing whole"; specs/Layout): the eight counts, then what is in use
// of each part.
ghost use Rattle.std.specs.Prelude.{◌+◌, ◌*◌, ◌≤◌, length};
ghost use Rattle.words.specs.Bytes.{bytes_of};
ghost use Rattle.layout.specs.Layout.{Put, joined, picture_bytes, pictured, Fitting};

use crate::{Counts, Slices};
use words::bytes::put_words;

// The words of all slices, one behind the other, at the head of `out`; all else stays. The answer is the place behind them.
fn put_all(out: &mut [u8], slices: &[&[u32]]) -> usize
    requires { 4 * length (joined slices.now) ≤ length out.old }
    ensures { Put out.old 0 (bytes_of (joined slices.now)) out.new result }
{
    let mut at = 0;
    for words in slices {
        put_words(out, at, words);
        at += 4 * words.len();
    }
    at
}

// The whole picture, at the head of `out`; all else stays. The answer is the place behind it.
pub fn write_picture(out: &mut [u8], slices: Slices, regs: usize, opers: usize) -> usize
    requires { Fitting (pictured slices regs opers) (length out.old) }
    ensures { Put out.old 0 (picture_bytes (pictured slices.entry regs opers)) out.new result }
{
    let counts = Counts {
        blocks: (slices.bounds.len() / 2) as u32,
        insts: slices.locs.len() as u32,
        registers: regs as u32,
        operands: opers as u32,
        pairs: slices.pairs.len() as u32,
        targets: slices.targets.len() as u32,
        replay: slices.replay.len() as u32,
        vias: slices.vias.len() as u32,
    };
    put_all(
        out,
        &[
            &counts.words(),
            slices.bounds,
            slices.recs,
            slices.locs,
            slices.vias,
            &slices.types[..regs],
            &slices.ops[..opers],
            slices.pairs,
            slices.targets,
            slices.replay,
        ],
    )
}
