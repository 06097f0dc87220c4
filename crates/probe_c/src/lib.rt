// Single layers of the port for C, and so for tests/rust: crate `probe`'s functions under their own names, with their clauses.
#![tactic(auto)]

ghost use Rattle.std.specs.Prelude.{◌≡◌, [], ℕ, ◌/◌, ◌<◌, length};
ghost use Rattle.words.specs.Bits.{width};
ghost use Rattle.model.specs.Refusal.{refusal};
ghost use Rattle.model.specs.Pass.{sink};
ghost use Rattle.checks.specs.Causes.{picture_of};
ghost use Rattle.cfg.specs.Drawn.{drawn};
ghost use Rattle.flow.specs.Live.{Live, Rows};
ghost use Rattle.cfg.specs.Preds.{Preds};
ghost use Rattle.rounds.specs.Ended.{Work};
ghost use Rattle.sink.specs.Sink.{Lent};
ghost use Rattle.probe.specs.Heads.{Told};
ghost use Rattle.probe.specs.Attempt.{attempt, with_attempt, Left, Listed};

use facts::Fact;

// The lowest number whose cause is present, or 0: `acceptance::accept`, the table of roles made for this one call.
#[unsafe(no_mangle)]
pub extern "C" fn virdzeba_refusal(
    bounds: &[u32],
    recs: &[u32],
    locs: &[u32],
    vias: &[u32],
    types: &[u32],
    ops: &[u32],
    pairs: &[u32],
    targets: &[u32],
    registers: u32,
    operands: u32,
    w64: usize,
    w32: usize,
    records: usize,
) -> u32
    ensures { result ≡ refusal (picture_of bounds.now recs.now locs.now vias.now types.now registers ops.now operands pairs.now targets.now []) w64 w32 records }
{
    probe::virdzeba_refusal(
        bounds, recs, locs, vias, types, ops, pairs, targets, registers, operands, w64, w32,
        records,
    )
}

// Predecessors of an accepted picture, two words a block: how many there are, up to two, and the first. The slice is as long
// as the pass's work in 32-bit words; the answer is that of `virdzeba_refusal`, and unless it is 0 nothing is written.
#[unsafe(no_mangle)]
pub extern "C" fn virdzeba_preds<'a>(
    words: &mut [u32],
    bounds: &[u32],
    recs: &'a [u32],
    locs: &[u32],
    vias: &[u32],
    types: &[u32],
    ops: &[u32],
    pairs: &[u32],
    targets: &'a [u32],
    registers: u32,
    operands: u32,
    w64: usize,
    records: usize,
) -> u32
    ensures value { result ≡ refusal (picture_of bounds.now recs.now locs.now vias.now types.now registers ops.now operands pairs.now targets.now []) w64 (length words.old) records }
    ensures words_unchanged { (result ≡ 0 → ⊥) → words.new ≡ words.old }
    ensures preds { result ≡ 0 → Preds (picture_of bounds.now recs.now locs.now vias.now types.now registers ops.now operands pairs.now targets.now []) words.new }
{
    probe::virdzeba_preds(
        words, bounds, recs, locs, vias, types, ops, pairs, targets, registers, operands, w64,
        records,
    )
}

// What live-in begins with, so that its time can be told from that of the sweeps: of each block of an accepted picture the rows of what
// it reads first and of what it writes, where flow/src/rows.rt says. The slice and the answer are those of `virdzeba_live`.
#[unsafe(no_mangle)]
pub extern "C" fn virdzeba_rows<'a>(
    bits: &mut [u64],
    bounds: &[u32],
    recs: &'a [u32],
    locs: &[u32],
    vias: &[u32],
    types: &[u32],
    ops: &[u32],
    pairs: &[u32],
    targets: &'a [u32],
    registers: u32,
    operands: u32,
    w32: usize,
    records: usize,
) -> u32
    ensures value { result ≡ refusal (picture_of bounds.now recs.now locs.now vias.now types.now registers ops.now operands pairs.now targets.now []) (length bits.old) w32 records }
    ensures bits_unchanged { (result ≡ 0 → ⊥) → bits.new ≡ bits.old }
    ensures rows { result ≡ 0 → (b : ℕ) → b < length bounds.now / 2 → Rows (drawn bounds.now recs.now ops.now [] []) (width registers) b bits.new }
{
    probe::virdzeba_rows(
        bits, bounds, recs, locs, vias, types, ops, pairs, targets, registers, operands, w32,
        records,
    )
}

// Live-in of an accepted picture: a row of bits for each block, a word for each 64 registers in use. The slice is as long as the
// pass's work in 64-bit words; the answer is that of `virdzeba_refusal`, and unless it is 0 nothing is written.
#[unsafe(no_mangle)]
pub extern "C" fn virdzeba_live<'a>(
    bits: &mut [u64],
    bounds: &[u32],
    recs: &'a [u32],
    locs: &[u32],
    vias: &[u32],
    types: &[u32],
    ops: &[u32],
    pairs: &[u32],
    targets: &'a [u32],
    registers: u32,
    operands: u32,
    w32: usize,
    records: usize,
) -> u32
    ensures value { result ≡ refusal (picture_of bounds.now recs.now locs.now vias.now types.now registers ops.now operands pairs.now targets.now []) (length bits.old) w32 records }
    ensures bits_unchanged { (result ≡ 0 → ⊥) → bits.new ≡ bits.old }
    ensures live { result ≡ 0 → Live (picture_of bounds.now recs.now locs.now vias.now types.now registers ops.now operands pairs.now targets.now []) (width registers) bits.new }
{
    probe::virdzeba_live(
        bits, bounds, recs, locs, vias, types, ops, pairs, targets, registers, operands, w32,
        records,
    )
}

// The number of the answer as the host is given it. At the head of `out`, if it has two words, the registers and operands then in
// use; a refusal leaves it as it was.
#[unsafe(no_mangle)]
pub extern "C" fn virdzeba_sink_all(
    bounds: &mut [u32],
    recs: &mut [u32],
    locs: &mut [u32],
    vias: &mut [u32],
    types: &mut [u32],
    registers: u32,
    ops: &mut [u32],
    operands: u32,
    pairs: &[u32],
    targets: &[u32],
    replay: &[u32],
    work64: &mut [u64],
    work32: &mut [u32],
    facts: &mut [Fact],
    out: &mut [u32],
) -> u32
    ensures { let P = picture_of bounds.old recs.old locs.old vias.old types.old registers ops.old operands pairs.now targets.now replay.now in
        let o = sink P (length work64.old) (length work32.old) (length facts.old) in
        let cause = refusal P (length work64.old) (length work32.old) (length facts.old) in
        Told o result bounds.new recs.new locs.new vias.new types.new ops.new out.old out.new
        × Work cause work64.old work32.old work64.new work32.new
        × Lent cause facts.old facts.new }
{
    probe::whole::virdzeba_sink_all(
        bounds, recs, locs, vias, types, registers, ops, operands, pairs, targets, replay, work64,
        work32, facts, out,
    )
}

// 1 if block x has a move, 0 if not; 200 and the number of a refusal; 300 where x is no block. Of a move, at the head of `out`, if it
// has four words: the target, the positions in x but for its last, those of the chain, the members. The chain's facts are then the first
// of `facts`, one a position, and its words the first 8,000 of `work32`, ten a position (docs/DESIGN.md).
#[unsafe(no_mangle)]
pub extern "C" fn virdzeba_try<'a>(
    bounds: &[u32],
    recs: &'a [u32],
    locs: &[u32],
    vias: &[u32],
    types: &[u32],
    registers: u32,
    ops: &[u32],
    operands: u32,
    pairs: &[u32],
    targets: &'a [u32],
    replay: &[u32],
    work64: &mut [u64],
    work32: &mut [u32],
    facts: &mut [Fact],
    x: u32,
    out: &mut [usize],
) -> u32
    ensures { let P = picture_of bounds.now recs.now locs.now vias.now types.now registers ops.now operands pairs.now targets.now replay.now in
        let n64 = length work64.old in
        let n32 = length work32.old in
        let lent = length facts.old in
        (result ≡ attempt P n64 n32 lent x) × (out.new ≡ with_attempt out.old P n64 n32 lent x) × Left P x lent work64.old work32.old work64.new work32.new × Listed P x n64 n32 facts.old facts.new }
{
    probe::attempt::virdzeba_try(
        bounds, recs, locs, vias, types, registers, ops, operands, pairs, targets, replay, work64,
        work32, facts, x, out,
    )
}
