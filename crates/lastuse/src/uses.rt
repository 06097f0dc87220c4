// The last use of each position's value (01, "The move": a register is reused once its last reader is before the present member):
// its last reader in the chain, the position itself if nobody reads it, or past the end if the target reads it.
ghost use Rattle.std.specs.Prelude.{◌≡◌, cond, map, ℕ, ◌<◌, ◌≤◌, length, get_or};
ghost use Rattle.words.specs.Lists.{all};
ghost use Rattle.summary.specs.Passes.{result_test};
ghost use Rattle.model.specs.Picture.{inst, reads, writes};
ghost use Rattle.inst.specs.Index.{word_of, Among, Low};
ghost use Rattle.inst.specs.declared.index.Reg.{Reg as RegAt};
ghost use Rattle.inst.specs.Record.{Known};
ghost use Rattle.regfacts.specs.Written.{Fits, Good};
ghost use Rattle.lastuse.specs.Uses.{note_in, Noticed, ReadOn, Legible, ReadersAlong};

use chains::chain::Chain;
use chains::positions::Positions;
use inst::code::Code;
use inst::index::Reg;
use legality::rules::{Elsewhere, unneeded_slots};
use model::RECORDS;
use summary::stamps::{Stamp, put_regs};

// Position q reads register r, if it is one: r's writer has a reader.
fn note(st: &[u64], lasts: &mut [u32; RECORDS], r: Option<Reg>, q: u32)
    requires { Among (length st.now) r × ((x : ℕ) → x < length st.now → get_or st.now x 0 ≤ 800) }
    ensures { lasts.new ≡ note_in st.now (word_of r) q lasts.old }
{
    let Some(k) = r else {
        return;
    };
    let d = st[k.at()];
    if d == 0 {
        return;
    }
    let i = (d - 1) as usize;
    lasts[i] = q;
}

// Position q reads these registers.
fn note_regs(regs: &[Reg], st: &[u64], lasts: &mut [u32; RECORDS], q: u32)
    requires { Low (length st.now) (map (λ (r : RegAt). r.0) regs.now) × ((x : ℕ) → x < length st.now → get_or st.now x 0 ≤ 800) × (length lasts.old ≡ 800) }
    ensures { Noticed st.now (map (λ (r : RegAt). r.0) regs.now) q lasts.old lasts.new }
{
    for r in regs {
        note(st, lasts, Some(*r), q);
    }
}

// It reads those of a list.
fn note_list(list: &[u32], st: &[u64], lasts: &mut [u32; RECORDS], q: u32)
    requires { Low (length st.now) list.now × ((x : ℕ) → x < length st.now → get_or st.now x 0 ≤ 800) × (length lasts.old ≡ 800) }
    ensures { Noticed st.now list.now q lasts.old lasts.new }
{
    for r in list {
        note(st, lasts, Reg::new(*r, st.len()), q);
    }
}

// Position q, record g: what it reads is noted, in its slots, then in its list; then what it writes.
fn read_on(code: &Code, st: &mut [u64], lasts: &mut [u32; RECORDS], g: usize, q: usize)
    requires { Good code.now.recs.now code.now.ops.now (length st.old) g × ((x : ℕ) → x < length st.old → get_or st.old x 0 ≤ 800) × (length lasts.old ≡ 800) × (q < 800) }
    ensures { ReadOn (writes (inst code.now.recs.now g)) (reads code.now.ops.now (inst code.now.recs.now g)) q st.old lasts.old st.new lasts.new }
{
    let visit = code.visit(g, st.len());
    note_regs(visit.reads.as_slice(), st, lasts, q as u32);
    note_list(visit.list(code.ops), st, lasts, q as u32);
    let v = q as u64 + 1;
    let d = Stamp { keep: 1, lo: 0, v };
    put_regs(visit.writes.as_slice(), st, d);
}

// Each position's last reader in chain c: `lasts` holds each position itself at first.
pub fn last_readers(
    code: &Code,
    bounds: &[u32],
    st: &mut [u64],
    lasts: &mut [u32; RECORDS],
    c: Chain,
)
    requires { Legible code.now.recs.now code.now.ops.now bounds.now c (length st.old) × (length lasts.old ≡ 800) × ((p : ℕ) → p < 800 → get_or lasts.old p 0 ≡ p) }
    ensures { ReadersAlong code.now.recs.now code.now.ops.now bounds.now c lasts.new × (length st.new ≡ length st.old) }
{
    st.fill(0);
    for (q, g) in Positions::new(bounds, c).enumerate() {
        read_on(code, st, lasts, g, q);
    }
}

// The last use of position p, record g, by its last reader: past the end, n, if the target reads its value. What is asked elsewhere
// is the row of what is live at the target.
pub fn last_use(
    code: &Code,
    asked: &Elsewhere<'_>,
    lasts: &[u32; RECORDS],
    g: usize,
    p: usize,
    n: usize,
) -> u32
    requires { Known code.now.recs.now g × Fits code.now.recs.now (length asked.now.regs.now) g × (p < n) × (n ≤ 800) × (asked.now.at ≤ length asked.now.bits.now) }
    ensures { result ≡ cond (all (result_test asked.now.regs.now asked.now.bits.now asked.now.at p) (writes (inst code.now.recs.now g))) (get_or lasts.now p 0) n }
{
    if unneeded_slots(&code.slots(g), asked, p) {
        return lasts[p];
    }
    n as u32
}
