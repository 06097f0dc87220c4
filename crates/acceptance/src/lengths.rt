// Causes 1, 2 and 10 (01, "The call", the table; work sizes under "Port order and sizes", records under "What changes
// shape"), by lengths alone: they are tested before anything is indexed, and no product can wrap.
ghost use Rattle.std.specs.Prelude.{◌≡◌, [], ◌*◌, ◌/◌, ◌≤◌, ltb, ◌||◌, length};
ghost use Rattle.model.specs.Refusal.{too_large, uneven, work64, work32, records};
ghost use Rattle.acceptance.specs.Lent.{picture};

use crate::lent::Lent;
use model::{CHAIN_WORDS, RECORDS};
use sizes::Room;

// The most blocks, instructions, registers, operands, pair words and target words that may be lent.
const BLOCKS: usize = 4096;

const INSTRUCTIONS: usize = 32768;

const REGISTERS: usize = 65536;

const OPERANDS: usize = 131072;

const PAIRS: usize = 65536;

const TARGETS: usize = 65536;

// 1: more of anything than may be lent, or more in use than is.
pub fn too_large(lent: Lent) -> bool
    ensures { result ≡ too_large (picture lent.entry []) }
{
    (BLOCKS < lent.bounds.len() / 2)
        | (INSTRUCTIONS < lent.locs.len())
        | (REGISTERS < lent.types.len())
        | (OPERANDS < lent.ops.len())
        | (PAIRS < lent.pairs.len())
        | (TARGETS < lent.targets.len())
        | (lent.types.len() < lent.used.regs as usize)
        | (lent.ops.len() < lent.used.opers as usize)
}

// 2: records, vias, bounds or pairs are not as many words as they must be.
pub fn uneven(lent: Lent) -> bool
    requires { length lent.locs.now ≤ 32768 }
    ensures { result ≡ uneven (picture lent.entry []) }
{
    let insts = lent.locs.len();
    let vias = lent.vias.len();
    (lent.recs.len() != 16 * insts)
        | !((vias == 0) | (vias == insts))
        | (lent.bounds.len() % 2 == 1)
        | (lent.pairs.len() % 2 == 1)
}

// 10: the two work slices or the list of records are too short.
pub fn too_short(lent: Lent, room: Room) -> bool
    requires { (length lent.bounds.now / 2 ≤ 4096) × (length lent.types.now ≤ 65536) }
    ensures { let P = picture lent.entry [] in result ≡ (ltb room.w64 (work64 P) || ltb room.w32 (work32 P) || ltb room.records records) }
{
    let blocks = lent.bounds.len() / 2;
    let registers = lent.types.len();
    (room.w64 < 4 * blocks * registers.div_ceil(64) + 2 * registers)
        | (room.w32 < 8 * registers + 16 * blocks + CHAIN_WORDS)
        | (room.records < RECORDS)
}
