// Rules 3 to 6 that a member keeps (01, "The legal set"), against what the kept positions do, which `backward` and `forward` note.
ghost use Rattle.std.specs.Prelude.{◌≡◌, ◌⊎◌, not, ◌||◌, ℕ, ◌+◌, ◌%◌, ◌<◌, ◌≤◌, length, get_or, eqb, leb};
ghost use Rattle.words.specs.Lists.{all};
ghost use Rattle.model.specs.Picture.{inst, reads};
ghost use Rattle.inst.specs.Index.{word_of, Among};
ghost use Rattle.regfacts.specs.Written.{Good};
ghost use Rattle.legalset.specs.Chain.{picked};
ghost use Rattle.legalset.specs.Rules.{still_fine};
ghost use Rattle.summary.specs.Passes.{read_test, place_test, word_org, org_test, piece_test, from_test, memory_test, own_test, Near, Readable};

use effects::arms::PIECES;
use effects::origin::{FRAME, RO, UNKNOWN};
use facts::Fact;
use inst::code::Code;
use inst::index::Reg;
use inst::record::Record;
use summary::notes::Lasts;
use summary::reads::all_read;
use summary::stamps::{AWAITED, MEMBER_AT, ORIGIN, WRITER};

// Memory of an origin that is not known, which may be any.
const ANY: usize = UNKNOWN as usize + 1;

// Rule 3 for register r, if it is one.
fn read_ok(st: &[u64], r: Option<Reg>, p: usize) -> bool
    requires { Among (length st.now) r × (p < 800) }
    ensures { result ≡ place_test st.now p (word_of r) }
{
    let Some(k) = r else {
        return true;
    };
    let v = st[k.at()];
    (v / MEMBER_AT % 2 == 1) | (v % AWAITED <= p as u64 + 1)
}

// Rule 3: each register that position p reads has its writer in the set, or is written by no kept position after p.
pub fn rule3(code: &Code, f: Fact, st: &[u64], p: usize) -> bool
    requires { Readable code.now.recs.now code.now.ops.now (length st.now) f × (p < 800) }
    ensures { result ≡ all (read_test st.now p) (reads code.now.ops.now (inst code.now.recs.now f.rec)) }
{
    if !f.more {
        let n = st.len();
        return read_ok(st, Reg::new(f.use0, n), p) & read_ok(st, Reg::new(f.use1, n), p);
    }
    all_read(code, f.rec as usize, st.len(), |r| read_ok(st, r, p))
}

// Rule 4: no kept position after p may suspend.
pub fn rule4(lasts: &Lasts, p: usize) -> bool
    requires { p < 800 }
    ensures { result ≡ leb lasts.now.suspension (p + 1) }
{
    lasts.suspension <= p as u32 + 1
}

// Rule 6: the memory that the position of fact f writes is Temp of a member.
pub fn rule6(lasts: &Lasts, f: Fact) -> bool
    requires { f.wrote ≤ 2004 }
    ensures { result ≡ own_test lasts.now.writes f.wrote }
{
    (f.wrote == 0) | lasts.is_placed(f.wrote as usize)
}

// What rule 5 asks: of each register in use what was known of it before round 1, and what is stamped of it; what the kept positions do.
#[derive(Clone, Copy)]
pub struct Kept<'a> {
    pub regs: &'a [u32],
    pub st: &'a [u64],
    pub lasts: &'a Lasts,
    ghost near: { Near st.now },
    ghost alike: { length regs.now ≡ length st.now },
}

impl Kept<'_> {
    // Rule 5 for the origin of number o. It asks of writes only from Frame on.
    fn org_ok(&self, p: usize, o: u32) -> bool
        requires { (o < 2005) × (p < 800) }
        ensures { result ≡ org_test self.now.lasts.now.writes self.now.lasts.now.barrier p o }
    {
        let e = p as u32 + 1;
        let k = o as usize + 1;
        ((o == RO) | (FRAME <= o))
            & ((self.lasts.barrier <= e) | (o == RO))
            & (self.lasts.last_write(ANY) <= e)
            & ((o <= 2) | (self.lasts.last_write(k) <= e))
    }

    // Where register r points that is read at this place.
    fn reg_org(&self, r: Reg) -> u32
        requires { r.0 < length self.now.st.now }
        ensures { (result ≡ word_org self.now.regs.now r.0 (get_or self.now.st.now r.0 0)) × (result < 2005) }
    {
        let k = r.at();
        let v = self.st[k];
        if WRITER <= v {
            return (v / ORIGIN) as u32;
        }
        if self.regs[k] % 2 == 1 {
            return RO;
        }
        if self.regs[k] / 2 % 2 == 1 {
            return FRAME;
        }
        UNKNOWN
    }

    // Rule 5 for a Cat's piece, if its bit says that it is an address.
    fn piece_ok(&self, p: usize, sc: u32, r: Reg) -> bool
        requires { (r.0 < length self.now.st.now) × (p < 800) }
        ensures { result ≡ (not (eqb (sc % 2) 0) || piece_test self.now.regs.now self.now.st.now self.now.lasts.now.writes self.now.lasts.now.barrier p r.0) }
    {
        if sc % 2 != 0 {
            return true;
        }
        self.org_ok(p, self.reg_org(r))
    }

    // Rule 5 for all of a Cat's pieces, the registers xs.
    fn pieces_ok(&self, xs: &[u32], p: usize, scalars: u32) -> bool
        requires { ((k : ℕ) → k < length xs.now → get_or xs.now k 0 < length self.now.st.now) × (p < 800) }
        ensures { result ≡ all (piece_test self.now.regs.now self.now.st.now self.now.lasts.now.writes self.now.lasts.now.barrier p) (picked scalars xs.now) }
    {
        let mut sc = scalars;
        for pair in xs.chunks_exact(2) {
            let Some(r) = Reg::new(pair[0], self.st.len()) else {
                return false;
            };
            if !self.piece_ok(p, sc, r) {
                return false;
            }
            sc /= 2;
        }
        true
    }

    // Rule 5 for all that position p reads.
    fn froms_ok(&self, code: &Code, f: Fact, p: usize) -> bool
        requires { Good code.now.recs.now code.now.ops.now (length self.now.st.now) f.rec × (p < 800) × ((f.from ≤ 2004) ⊎ (f.from ≡ 4294967295)) }
        ensures { result ≡ from_test self.now.regs.now code.now.ops.now (inst code.now.recs.now f.rec) self.now.st.now self.now.lasts.now.writes self.now.lasts.now.barrier f.from p }
    {
        let x = f.from;
        if x == 0 {
            return true;
        }
        if x != PIECES {
            return self.org_ok(p, x - 1);
        }
        let g = f.rec as usize;
        let rec = Record {
            recs: code.recs,
            p: g,
        };
        self.pieces_ok(code.list(g), p, rec.payload(0))
    }

    // Rule 5 for what position p creates or writes.
    fn still(&self, f: Fact, p: usize) -> bool
        requires { p < 800 }
        ensures { result ≡ still_fine p self.now.lasts.now.barrier f.creates f.wrote }
    {
        (self.lasts.barrier <= p as u32 + 1) | (!f.creates & (f.wrote == 0))
    }

    // Rule 5: after p no kept barrier if p creates, writes memory, or reads other than Ro or Heap; no kept write that may alias what p
    // reads; and p's reads are Ro, Frame, Img or Temp.
    pub fn rule5(&self, code: &Code, f: Fact, p: usize) -> bool
        requires { Good code.now.recs.now code.now.ops.now (length self.now.st.now) f.rec × (p < 800) × ((f.from ≤ 2004) ⊎ (f.from ≡ 4294967295)) }
        ensures { result ≡ memory_test code.now.recs.now code.now.ops.now self.now.regs.now self.now.st.now self.now.lasts.now.writes f self.now.lasts.now.barrier p }
    {
        if !self.still(f, p) {
            return false;
        }
        self.froms_ok(code, f, p)
    }
}
