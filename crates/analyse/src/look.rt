// What is known of a register at a position of a chain (01, "The legal set"; 000's `orgof` and `lenof`): from its last writer
// in the chain, or else from the facts of before round 1. A register's word has all of it, from the lowest bits up: 4 flags of
// before round 1; 10 bits for the last writer's position and 1, or 0; and where there is a writer, what it left: 11 bits for
// where that points, as an origin's number, 1 bit if it is a length, 1 bit if it points to a block whose maker is a layout.
ghost use Rattle.std.specs.Prelude.{◌≡◌, List, ℕ, ◌+◌, ◌*◌, ◌%◌, ◌≤◌, ◌<◌, length};
ghost use Rattle.model.specs.Analyse.{Facts, Fact, when_some, positive, known_of};
ghost use Rattle.inst.specs.Index.{word_of, Among};
ghost use Rattle.regfacts.specs.Flags.{Seen};
ghost use Rattle.analyse.specs.State.{Marked, Ranged, Valued, left_in};

use effects::origin::{UNKNOWN, Value};
use inst::index::Reg;
use regfacts::flags::{FLAGS, origin};

// A position and 1 is below this.
pub(crate) const POSITIONS: u64 = 1024;

// So what the last writer left stands over that and the flags by this.
pub const LEFT: u64 = FLAGS * POSITIONS;

// In what it left, whether that is a length stands over where it points by this, and whether it points to a layout by the next.
pub const LENGTH: u64 = 2048;

pub const LAYOUT: u64 = 2 * LENGTH;

// What a register's word says, where there is a writer.
fn left_in(v: u64) -> Value
    ensures { result ≡ left_in v }
{
    let h = v / LEFT;
    Value {
        org: (h % LENGTH) as u32,
        len: h / LENGTH % 2 == 1,
        layout: h / LAYOUT % 2 == 1,
    }
}

// What is known of the value of register r, if that is one.
pub fn value_of(regs: &[u64], r: Option<Reg>) -> Value
    requires { Among (length regs.now) r }
    ensures { (count n : ℕ) → Among count r → Ranged count n regs.now → (result.org < 4 + 2 * n) × ((G : Facts) (past : List Fact) → length past ≡ n → Marked G past count regs.now → Valued G past (word_of r) result) }
{
    let Some(k) = r else {
        return Value {
            org: UNKNOWN,
            len: false,
            layout: false,
        };
    };
    let v = regs[k.at()];
    if v < FLAGS {
        return Value {
            org: origin(v),
            len: v / 4 % 2 == 1,
            layout: false,
        };
    }
    left_in(v)
}

// Is register r a constant above 0?
pub fn is_divisor(regs: &[u64], r: Option<Reg>) -> bool
    requires { Among (length regs.now) r }
    ensures { (G : Facts) (count : ℕ) → Among count r → count ≤ 65536 → Seen G count regs.now → result ≡ when_some positive (known_of G (word_of r)).konst }
{
    let Some(k) = r else {
        return false;
    };
    regs[k.at()] / 8 % 2 == 1
}
