// Single layers of the port, for tests/rust to hold against the Rust: each function asks nothing of its caller, and its contract
// is the layer's own. Crate `probe_c` exports them for C, so their parameters are C's.
#![tactic(auto)]

pub mod whole; // whole.rt: the whole call
pub mod attempt; // attempt.rt: the search from one block

ghost use Rattle.std.specs.Prelude.{◌≡◌, [], ℕ, ◌/◌, ◌<◌, length};
ghost use Rattle.words.specs.Bits.{width};
ghost use Rattle.model.specs.Refusal.{refusal};
ghost use Rattle.checks.specs.Causes.{picture_of};
ghost use Rattle.cfg.specs.Drawn.{drawn};
ghost use Rattle.flow.specs.Live.{Live, Rows};
ghost use Rattle.cfg.specs.Preds.{Preds};

use acceptance::accept;
use acceptance::lent::Lent;
use cfg::graph::Func;
use cfg::preds::find_preds;
use flow::live::live_in;
use flow::rows::all_rows;
use inst::code::Code;
use inst::table::Table;
use sizes::{InUse, Room};

// The lowest number whose cause is present, or 0: `acceptance::accept`, the table of roles made for this one call.
pub fn virdzeba_refusal(
    bounds: &[u32],
    recs: &[u32],
    locs: &[u32],
    vias: &[u32],
    types: &[u32],
    ops: &[u32],
    pairs: &[u32],
    targets: &[u32],
    registers: u32,
    operands: u32,
    w64: usize,
    w32: usize,
    records: usize,
) -> u32
    ensures { result ≡ refusal (picture_of bounds.now recs.now locs.now vias.now types.now registers ops.now operands pairs.now targets.now []) w64 w32 records }
{
    let t = Table::new();
    let lent = Lent {
        bounds,
        recs,
        locs,
        vias,
        types,
        ops,
        pairs,
        targets,
        used: InUse {
            regs: registers,
            opers: operands,
        },
    };
    let room = Room {
        w64: w64,
        w32: w32,
        records: records,
    };
    match accept(lent, room, &t) {
        Ok(()) => 0,
        Err(cause) => cause.number(),
    }
}

// Predecessors of an accepted picture, two words a block: how many there are, up to two, and the first. The slice is as long
// as the pass's work in 32-bit words; the answer is that of `virdzeba_refusal`, and unless it is 0 nothing is written.
pub fn virdzeba_preds<'a>(
    words: &mut [u32],
    bounds: &[u32],
    recs: &'a [u32],
    locs: &[u32],
    vias: &[u32],
    types: &[u32],
    ops: &[u32],
    pairs: &[u32],
    targets: &'a [u32],
    registers: u32,
    operands: u32,
    w64: usize,
    records: usize,
) -> u32
    ensures value { result ≡ refusal (picture_of bounds.now recs.now locs.now vias.now types.now registers ops.now operands pairs.now targets.now []) w64 (length words.old) records }
    ensures words_unchanged { (result ≡ 0 → ⊥) → words.new ≡ words.old }
    ensures preds { result ≡ 0 → Preds (picture_of bounds.now recs.now locs.now vias.now types.now registers ops.now operands pairs.now targets.now []) words.new }
{
    let t = Table::new();
    let lent = Lent {
        bounds,
        recs,
        locs,
        vias,
        types,
        ops,
        pairs,
        targets,
        used: InUse {
            regs: registers,
            opers: operands,
        },
    };
    let room = Room {
        w64: w64,
        w32: words.len(),
        records: records,
    };
    if let Err(cause) = accept(lent, room, &t) {
        return cause.number();
    }
    let func = Func {
        table: &t,
        bounds,
        recs,
        pairs,
        targets,
    };
    find_preds(words, &func);
    0
}

// What live-in begins with, so that its time can be told from that of the sweeps: of each block of an accepted picture the rows of what
// it reads first and of what it writes, where flow/src/rows.rt says. The slice and the answer are those of `virdzeba_live`.
pub fn virdzeba_rows<'a>(
    bits: &mut [u64],
    bounds: &[u32],
    recs: &'a [u32],
    locs: &[u32],
    vias: &[u32],
    types: &[u32],
    ops: &[u32],
    pairs: &[u32],
    targets: &'a [u32],
    registers: u32,
    operands: u32,
    w32: usize,
    records: usize,
) -> u32
    ensures value { result ≡ refusal (picture_of bounds.now recs.now locs.now vias.now types.now registers ops.now operands pairs.now targets.now []) (length bits.old) w32 records }
    ensures bits_unchanged { (result ≡ 0 → ⊥) → bits.new ≡ bits.old }
    ensures rows { result ≡ 0 → (b : ℕ) → b < length bounds.now / 2 → Rows (drawn bounds.now recs.now ops.now [] []) (width registers) b bits.new }
{
    let t = Table::new();
    let lent = Lent {
        bounds,
        recs,
        locs,
        vias,
        types,
        ops,
        pairs,
        targets,
        used: InUse {
            regs: registers,
            opers: operands,
        },
    };
    let room = Room {
        w64: bits.len(),
        w32: w32,
        records: records,
    };
    if let Err(cause) = accept(lent, room, &t) {
        return cause.number();
    }
    let k = registers as usize;
    let code = Code {
        table: &t,
        recs,
        ops,
    };
    all_rows(bits, &mut [], &code, bounds, k);
    0
}

// Live-in of an accepted picture: a row of bits for each block, a word for each 64 registers in use. The slice is as long as the
// pass's work in 64-bit words; the answer is that of `virdzeba_refusal`, and unless it is 0 nothing is written.
pub fn virdzeba_live<'a>(
    bits: &mut [u64],
    bounds: &[u32],
    recs: &'a [u32],
    locs: &[u32],
    vias: &[u32],
    types: &[u32],
    ops: &[u32],
    pairs: &[u32],
    targets: &'a [u32],
    registers: u32,
    operands: u32,
    w32: usize,
    records: usize,
) -> u32
    ensures value { result ≡ refusal (picture_of bounds.now recs.now locs.now vias.now types.now registers ops.now operands pairs.now targets.now []) (length bits.old) w32 records }
    ensures bits_unchanged { (result ≡ 0 → ⊥) → bits.new ≡ bits.old }
    ensures live { result ≡ 0 → Live (picture_of bounds.now recs.now locs.now vias.now types.now registers ops.now operands pairs.now targets.now []) (width registers) bits.new }
{
    let t = Table::new();
    let lent = Lent {
        bounds,
        recs,
        locs,
        vias,
        types,
        ops,
        pairs,
        targets,
        used: InUse {
            regs: registers,
            opers: operands,
        },
    };
    let room = Room {
        w64: bits.len(),
        w32: w32,
        records: records,
    };
    if let Err(cause) = accept(lent, room, &t) {
        return cause.number();
    }
    let k = registers as usize;
    let code = Code {
        table: &t,
        recs,
        ops,
    };
    let func = Func {
        table: &t,
        bounds,
        recs,
        pairs,
        targets,
    };
    all_rows(bits, &mut [], &code, bounds, k);
    live_in(bits, &func, k);
    0
}
