// The chain's words for the move (01, "The move"): of each position the number of its record, its mark and the register it writes, by its
// fact; of each position in x its last use.
ghost use Rattle.std.specs.Prelude.{◌≡◌, ◌+◌, ◌*◌, ◌≤◌, length};
ghost use Rattle.summary.specs.Passes.{Around};
ghost use Rattle.lastuse.specs.Uses.{Legible, ReadersAlong};
ghost use Rattle.sizes.specs.Parts.{stamps_at};
ghost use Rattle.chainwords.specs.Puts.{Own, put_fact, Facts, UseAsked, Lasting};
ghost use Rattle.chainwords.specs.Along.{Using, Used};

use apply::moves::Move;
use cfg::body::Body;
use chains::chain::Chain;
use facts::Fact;
use inst::code::Code;
use lastuse::uses::{last_readers, last_use};
use legality::rules::Elsewhere;
use model::RECORDS;
use position::{DEF, LAST, MARK, PLACE};
use sizes::{COPIED, at_stamps};
use words::bits::width;

// Of the words of position p, of fact f: record, mark, register written.
fn put_fact(work32: &mut [u32], f: Fact, p: usize)
    requires { 10 * p + 9 ≤ length work32.old }
    ensures { work32.new ≡ put_fact work32.old p f }
{
    let b = PLACE * p;
    work32[b] = f.rec;
    work32[b + MARK] = u32::from(f.member);
    work32[b + DEF] = f.def;
}

// The words of the first n positions.
pub fn put_facts(facts: &[Fact], work32: &mut [u32], n: usize)
    requires { (n ≤ length facts.now) × (n ≤ 800) × (8000 ≤ length work32.old) }
    ensures { Facts facts.now work32.old work32.new n }
{
    for p in 0..n {
        put_fact(work32, facts[p], p);
    }
}

// Each position itself.
fn own_places(lasts: &mut [u32; RECORDS])
    requires { length lasts.old ≡ 800 }
    ensures { Own lasts.new }
{
    for p in 0..RECORDS {
        lasts[p] = p as u32;
    }
}

// Each position's last reader in chain c, into `lasts`. The words of the stamps are written.
fn find_readers(body: &Body<'_>, work64: &mut [u64], lasts: &mut [u32; RECORDS], c: Chain)
    requires chain { Legible body.now.func.recs.now body.now.ops.now body.now.func.bounds.now c body.now.sizes.regs }
    requires few { (body.now.sizes.blocks ≤ 4096) × (body.now.sizes.lent ≤ 65536) }
    requires room { stamps_at body.now.sizes + body.now.sizes.regs ≤ length work64.old }
    requires lasts { length lasts.old ≡ 800 }
    ensures { ReadersAlong body.now.func.recs.now body.now.ops.now body.now.func.bounds.now c lasts.new × Around (stamps_at body.now.sizes) body.now.sizes.regs work64.old work64.new }
{
    let code = Code {
        table: body.func.table,
        recs: body.func.recs,
        ops: body.ops,
    };
    let st = at_stamps(body.sizes);
    let e = st + body.sizes.regs as usize;
    own_places(lasts);
    last_readers(&code, body.func.bounds, &mut work64[st..e], lasts, c);
}

// The last uses of the first m of n positions, into their words; the row asked of is that of what is live into the target.
fn put_lasts(
    code: &Code,
    asked: &Elsewhere<'_>,
    lasts: &[u32; RECORDS],
    words: &mut [u32],
    m: usize,
    n: usize,
)
    requires { UseAsked code.now.recs.now asked.now.regs.now asked.now.bits.now words.old asked.now.at n × (m ≤ n) }
    ensures { Lasting code.now.recs.now lasts.now asked.now.regs.now asked.now.bits.now words.old words.new asked.now.at n m }
{
    for p in 0..m {
        let g = words[PLACE * p] as usize;
        words[PLACE * p + LAST] = last_use(code, asked, lasts, g, p, n);
    }
}

// The last uses of the positions inside the first block of chain c, for move mv, if any members move.
pub fn put_uses(body: &Body<'_>, work64: &mut [u64], work32: &mut [u32], c: Chain, mv: Move)
    requires { Using body.now.func.bounds.now body.now.func.recs.now body.now.ops.now body.now.sizes c work64.old work32.old mv.moved mv.into.0 mv.inside mv.places }
    ensures { Used body.now.func.bounds.now body.now.func.recs.now body.now.ops.now body.now.sizes c work64.old work32.old mv.moved mv.into.0 mv.inside mv.places work64.new work32.new }
{
    if mv.moved == 0 {
        return;
    }
    let mut lasts = [0u32; RECORDS];
    find_readers(body, work64, &mut lasts, c);
    let code = Code {
        table: body.func.table,
        recs: body.func.recs,
        ops: body.ops,
    };
    let r = body.sizes.regs as usize;
    let (words, behind) = work32.split_at_mut(COPIED);
    let asked = Elsewhere {
        regs: &behind[..r],
        bits: work64,
        at: mv.into.at() * width(r),
    };
    put_lasts(&code, &asked, &lasts, words, mv.inside, mv.places);
}
