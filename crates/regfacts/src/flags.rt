// The facts on registers (01, "A round": "read-only, frame, constant .. once, before round 1, from registers with exactly one
// writer"), four bits in a word of 64 a register: 1 read-only, 2 frame, 4 a constant that is a length, 8 a constant above 0.
// Who alone writes a register is noted before, in the same words (defuse). A register that no record writes has 0, and so has a new one:
// it has no facts. The words are a lent slice's, which `analyse` puts last writers into, so they stay words.
ghost use Rattle.std.specs.Prelude.{◌≡◌, ◌⊎◌, ◌*◌, ◌≤◌, length, replicate};
ghost use Rattle.words.specs.Lists.{upto};
ghost use Rattle.model.specs.Picture.{inst};
ghost use Rattle.model.specs.Analyse.{known, small, positive};
ghost use Rattle.inst.specs.Record.{Within};
ghost use Rattle.defuse.specs.Writers.{many, notes};
ghost use Rattle.regfacts.specs.Flags.{flags_of, flags_in, origin_in, is_length, sole_of, Found};

use defuse::writers::SEVERAL;
use effects::origin::{FRAME, RO, UNKNOWN, address};
use inst::constant::{Constant, decode};
use inst::kinds::ADDR_OF;
use inst::record::Record;

// A register's word counts what stands over its flags by this.
pub const FLAGS: u64 = 16;

// The least and the greatest length, -2^40 and 2^40.
const LEAST: i64 = -1099511627776;

const GREATEST: i64 = 1099511627776;

// Is it a length: from -2^40 to 2^40, both included?
fn is_small(z: i64) -> bool
    ensures { result ≡ small z }
{
    (LEAST..=GREATEST).contains(&z)
}

fn is_positive(z: i64) -> bool
    ensures { result ≡ positive z }
{
    0 < z
}

// Is the constant a length?
#[tactic(auto, unfolding(crate::specs::Flags::is_length))]
pub fn is_length(c: Option<Constant>) -> bool
    ensures { result ≡ is_length c }
{
    match c {
        Some(Constant::Whole(z)) => is_small(z),
        _ => false,
    }
}

// The flags of a constant.
#[tactic(auto, unfolding(crate::specs::Flags::flags_in, effects::specs::Origin::num))]
fn constant_flags(c: Option<Constant>) -> u64
    ensures { result ≡ flags_in c }
{
    match c {
        Some(Constant::Whole(z)) => 4 * u64::from(is_small(z)) + 8 * u64::from(is_positive(z)),
        _ => 0,
    }
}

// The flags of a register whose only writer is record q.
fn record_flags(recs: &[u32], q: usize) -> u64
    requires { Within recs.now q }
    ensures { result ≡ flags_of (known (inst recs.now q)) }
{
    let rec = Record { recs, p: q };
    if rec.kind() == ADDR_OF {
        let o = address(rec.form());
        return u64::from(o == RO) + 2 * u64::from(o == FRAME);
    }
    constant_flags(decode(rec))
}

// Where a register with these flags points, as an origin's number.
#[tactic(auto, unfolding(crate::specs::Flags::origin_in))]
pub fn origin(f: u64) -> u32
    ensures { result ≡ origin_in f }
{
    if f % 2 == 1 {
        return RO;
    }
    if f / 2 % 2 == 1 {
        return FRAME;
    }
    UNKNOWN
}

// The flags of a register by its writer's word.
fn flags(recs: &[u32], v: u64) -> u64
    requires { (v ≡ many) ⊎ (16 * v ≤ length recs.now) }
    ensures { result ≡ flags_of (sole_of recs.now v) }
{
    if (v == 0) | (v == SEVERAL) {
        return 0;
    }
    let q = (v - 1) as usize;
    record_flags(recs, q)
}

// The facts on all registers, from the only writers that are noted of n records.
pub fn find_facts(recs: &[u32], regs: &mut [u64], n: usize)
    requires { (n ≤ 32768) × (16 * n ≤ length recs.now) × (regs.old ≡ notes recs.now (replicate (length regs.old) 0) (upto n)) }
    ensures { Found recs.now n (length regs.old) regs.new }
{
    for w in regs.iter_mut() {
        *w = flags(recs, *w);
    }
}
