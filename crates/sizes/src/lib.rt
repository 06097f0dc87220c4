// The sizes of what is lent, and where each part lies in the two work slices (docs/DESIGN.md, "The words of a chain, and its facts").
#![tactic(auto)]

ghost use Rattle.std.specs.Prelude.{◌≡◌, ◌≤◌};
ghost use Rattle.sizes.specs.Parts.{regs_at, stamps_at, preds_at};

use model::CHAIN_WORDS;
use words::bits::width;

// Registers and operands in use, as a picture is lent with them. (`model::Used` is what an answer gives, by the paper's names and with the
// rounds; `apply`'s `Counts` has what a move would need, which is a length.)
#[derive(Clone, Copy)]
pub struct InUse {
    pub regs: u32,
    pub opers: u32,
}

// The lengths of the two work slices, and the records lent.
#[derive(Clone, Copy)]
pub struct Room {
    pub w64: usize,
    pub w32: usize,
    pub records: usize,
}

// Blocks; instructions; registers in use and lent; operands in use.
#[derive(Clone, Copy)]
pub struct Sizes {
    pub blocks: u32,
    pub insts: usize,
    pub regs: u32,
    pub lent: usize,
    pub opers: u32,
}

// Where the copied words of the registers in use begin: behind the chain's.
pub const COPIED: usize = CHAIN_WORDS;

// Where the words of the registers begin.
pub fn at_regs(s: Sizes) -> usize
    requires { (s.blocks ≤ 4096) × (s.lent ≤ 65536) }
    ensures { (result ≡ regs_at s) × (result ≤ 16777216) }
{
    4 * s.blocks as usize * width(s.lent)
}

// Where their stamps begin.
pub fn at_stamps(s: Sizes) -> usize
    requires { (s.blocks ≤ 4096) × (s.lent ≤ 65536) }
    ensures { (result ≡ stamps_at s) × (result ≤ 16842752) }
{
    at_regs(s) + s.lent
}

// Where the predecessors begin: behind a copied word for each register lent.
pub fn at_preds(s: Sizes) -> usize
    requires { s.lent ≤ 65536 }
    ensures { result ≡ preds_at s }
{
    COPIED + s.lent
}
