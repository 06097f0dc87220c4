// The only writer of each register (01, "A round", the facts on registers: "from registers with exactly one writer"), as a number in a
// word a register. The rows' pass over the instructions notes who writes what.
ghost use Rattle.std.specs.Prelude.{◌≡◌, ◌<◌};
ghost use Rattle.defuse.specs.Writers.{noted, note};

use inst::index::Reg;

// The word of a register that more than one record writes: one of the words that are lent for the registers, so it is no `Option`.
pub const SEVERAL: u64 = 4294967295;

// A writer's word after a write by record p: 0 none, q + 1 record q, SEVERAL more than one.
fn next(v: u64, p: u64) -> u64
    requires { p < 32768 }
    ensures { result ≡ noted p v }
{
    if v == 0 {
        return p + 1;
    }
    if v == p + 1 {
        return v;
    }
    SEVERAL
}

// Record p writes register r, if that has a word.
pub(crate) fn note(notes: &mut [u64], r: Reg, p: usize)
    requires { p < 32768 }
    ensures { notes.new ≡ note p notes.old r.0 }
{
    let k = r.at();
    if k < notes.len() {
        notes[k] = next(notes[k], p as u64);
    }
}
