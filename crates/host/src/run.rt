// The call on a picture in bytes, with a line for each round (01, "One listing whole"): `sink_bytes`, for bytes and numbers of any
// value.
ghost use Rattle.std.specs.Prelude.{◌≡◌, ◌≤◌, length};
ghost use Rattle.layout.specs.Layout.{picture_bytes, Fitting};
ghost use Rattle.checks.specs.Causes.{picture_of};
ghost use Rattle.host.specs.Host.{sunk_of, sunk, put_by, left_by, RanAs, Roomy, replied, written};

use layout::read::Readable;
use layout::write::write_picture;
use layout::{
    BLOCKS, BOUNDS, INSTS, OPERANDS, PAIRS, PICTURE_BYTES, Part, RECS, REGISTERS, REPLAY, Slices,
    TARGETS, VIAS,
};
use model::{Answer, CHAIN_WORDS};
use rounds::state::Ran;
use sink::here::sink_here;
use sizes::InUse;

// The program's work slices: 64-bit words, eight a row of registers, and 32-bit words. (acceptance::lengths says the same of any sizes:
// a constant's value may not call a function yet.)
const WORK64: usize = 4 * BLOCKS * 8 + 2 * REGISTERS;

const WORK32: usize = 8 * REGISTERS + 16 * BLOCKS + CHAIN_WORDS;

// Done and Short: the picture at the head of `res`.
fn put_left(res: &mut [u8], answer: Answer, slices: Slices)
    requires { Fitting (left_by answer slices) (length res.old) }
    ensures { res.new ≡ put_by answer (picture_bytes (left_by answer slices.entry)) res.old }
{
    match answer {
        Answer::Done(u) | Answer::Short(u) => {
            write_picture(res, slices, u.registers as usize, u.operands as usize);
        }
        Answer::Refused(_) => {}
    }
}

// The call on lent slices, its facts and work words in lists of its own, and the picture left. (The six slices that change stay apart:
// a struct of `&mut` slices cannot be lent to two calls yet.)
fn sink_into(
    res: &mut [u8],
    bounds: &mut [u32],
    recs: &mut [u32],
    locs: &mut [u32],
    vias: &mut [u32],
    types: &mut [u32],
    ops: &mut [u32],
    pairs: &[u32],
    targets: &[u32],
    replay: &[u32],
    used: InUse,
) -> Ran
    requires { Roomy bounds.old recs.old locs.old vias.old types.old ops.old pairs.now targets.now replay.now (length res.old) }
    ensures { let P = picture_of bounds.old recs.old locs.old vias.old types.old used.regs ops.old used.opers pairs.now targets.now replay.now in
        RanAs (sunk_of P) res.old result res.new }
{
    let mut words64 = [0u64; WORK64];
    let mut words32 = [0u32; WORK32];
    let ran = sink_here(
        bounds,
        recs,
        locs,
        vias,
        types,
        used.regs,
        ops,
        used.opers,
        pairs,
        targets,
        replay,
        &mut words64,
        &mut words32,
    );
    let slices = Slices {
        bounds,
        recs,
        locs,
        vias,
        types,
        ops,
        pairs,
        targets,
        replay,
    };
    put_left(res, ran.answer, slices);
    ran
}

// The call on this picture, with so many registers and operands lent.
fn run(picture: Readable, res: &mut [u8], registers: usize, operands: usize) -> Ran
    requires { (53024 ≤ length res.old) × (registers ≤ 512) × (operands ≤ 2048) }
    ensures { RanAs (sunk picture.entry.bytes.now registers operands) res.old result res.new }
{
    let counts = picture.counts;
    let mut bounds = [0; BOUNDS];
    picture.get(Part::Bounds, &mut bounds);
    let mut recs = [0; RECS];
    picture.get(Part::Recs, &mut recs);
    let mut locs = [0; INSTS];
    picture.get(Part::Locs, &mut locs);
    let mut vias = [0; VIAS];
    picture.get(Part::Vias, &mut vias);
    let mut types = [0; REGISTERS];
    picture.get(Part::Types, &mut types);
    let mut ops = [0; OPERANDS];
    picture.get(Part::Ops, &mut ops);
    let mut pairs = [0; PAIRS];
    picture.get(Part::Pairs, &mut pairs);
    let mut targets = [0; TARGETS];
    picture.get(Part::Targets, &mut targets);
    let mut replay = [0; REPLAY];
    picture.get(Part::Replay, &mut replay);
    sink_into(
        res,
        &mut bounds[..counts.words_in(Part::Bounds)],
        &mut recs[..counts.words_in(Part::Recs)],
        &mut locs[..counts.words_in(Part::Locs)],
        &mut vias[..counts.words_in(Part::Vias)],
        &mut types[..registers],
        &mut ops[..operands],
        &pairs[..counts.words_in(Part::Pairs)],
        &targets[..counts.words_in(Part::Targets)],
        &replay[..counts.words_in(Part::Replay)],
        InUse {
            regs: counts.registers,
            opers: counts.operands,
        },
    )
}

// The call's answer and lines, if the picture can be read and all is within the bounds. Done and Short write the new picture at the
// head of `res`; nothing else is written.
pub fn sink_bytes(picture: &[u8], res: &mut [u8], registers: usize, operands: usize) -> Option<Ran>
    ensures value { result ≡ replied picture.now (length res.old) registers operands }
    ensures res_after { res.new ≡ written picture.now res.old registers operands }
{
    let picture = Readable::new(picture)?;
    if res.len() < PICTURE_BYTES || REGISTERS < registers || OPERANDS < operands {
        return None;
    }
    Some(run(picture, res, registers, operands))
}
