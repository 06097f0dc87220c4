// A function's records and operands beside the table of roles, and what the slots of one record do (01, "The call": `visit_mut` fixes
// the roles): that is looked up in the table once, and then each slot goes by its place.
ghost use Rattle.std.specs.Prelude.{◌≡◌, List, [], ◌++◌, ℕ, ◌+◌, ◌/◌, ◌%◌, ◌≤◌, ◌<◌, eqb};
ghost use Rattle.model.specs.Picture.{inst, kind, form, absent, list_of, reads, writes};
ghost use Rattle.inst.specs.Table.{packed, two_bits};
ghost use Rattle.inst.specs.Record.{word, Known, Used, Listed, read_at, write_at, later, readers, writers, rest_reads, rest_writes};
ghost use Rattle.inst.specs.Firsts.{Heads};
ghost use Rattle.inst.specs.Index.{reg_of};

use crate::index::Reg;
use crate::record::{Record, SLOTS};
use crate::scanned::Firsts;
use crate::table::{Row, Table, two_bits};
use model::ABSENT;

// What is looked at together: the table, the records and the operands.
#[derive(Clone, Copy)]
pub struct Code<'a> {
    pub table: &'a Table,
    pub recs: &'a [u32],
    pub ops: &'a [u32],
}

// Record p with what its slots do, 4 bits a slot, looked up once. They stay in one word: what all five do is mostly told by one
// comparison of it. (No `Record` inside: what is known of `does` says already that the record is whole.)
#[derive(Clone, Copy)]
pub struct Slots<'a> {
    pub recs: &'a [u32],
    pub p: usize,
    pub does: u32,
    ghost used: { Used recs.now p does },
}

impl<'a> Code<'a> {
    // The row of record p: of its kind at its form.
    pub fn row(&self, p: usize) -> Row
        requires { Known self.now.recs.now p }
        ensures { result.0 ≡ packed (kind (inst self.now.recs.now p)) (form (inst self.now.recs.now p)) }
    {
        let rec = Record { recs: self.recs, p };
        self.table.row(rec.kind(), rec.form())
    }

    // The slots of record p.
    pub fn slots(&self, p: usize) -> Slots<'a>
        requires { Known self.now.recs.now p }
        ensures recs { result.recs.now ≡ self.now.recs.now }
        ensures place { result.p ≡ p }
    {
        Slots {
            recs: self.recs,
            p,
            does: self.row(p).uses(),
        }
    }

    // The operands in the list of record p.
    pub fn list(&self, p: usize) -> &'a [u32]
        requires { Listed self.now.recs.now self.now.ops.now p }
        ensures { result.now ≡ list_of self.now.ops.now (inst self.now.recs.now p) }
    {
        let rec = Record { recs: self.recs, p };
        let a = rec.list_start();
        let e = a + rec.list_len();
        &self.ops[a..e]
    }

    // The first registers that a record reads and writes, in one scan from its last slot to its first.
    pub fn scan(&self, slots: &Slots<'_>) -> Firsts
        requires recs { slots.now.recs.now ≡ self.now.recs.now }
        requires list { Listed self.now.recs.now self.now.ops.now slots.now.p }
        ensures { Heads (reads self.now.ops.now (inst self.now.recs.now slots.now.p)) (writes (inst self.now.recs.now slots.now.p)) result }
    {
        slots.scan(self.list(slots.p))
    }
}

impl Slots<'_> {
    // The register, of `count`, that slot s reads, if there is one: absent is not below the count.
    pub fn read(&self, s: usize, count: usize) -> Option<Reg>
        requires slot { s < 5 }
        requires few { count ≤ absent }
        ensures { result ≡ reg_of (read_at (inst self.now.recs.now self.now.p) s) count }
    {
        if self.reads(s) {
            return Reg::new(self.word(s), count);
        }
        None
    }

    // The register, of `count`, that slot s writes, if there is one.
    pub fn write(&self, s: usize, count: usize) -> Option<Reg>
        requires slot { s < 5 }
        requires few { count ≤ absent }
        ensures { result ≡ reg_of (write_at (inst self.now.recs.now self.now.p) s) count }
    {
        if self.writes(s) {
            return Reg::new(self.word(s), count);
        }
        None
    }

    // Does slot s read? (Of a slot's two bits the lower says that it is read, the upper that it is written.)
    fn reads(&self, s: usize) -> bool
        requires { s < 5 }
        ensures { result ≡ eqb (two_bits self.now.does s % 2) 1 }
    {
        two_bits(self.does, s) % 2 == 1
    }

    // Does slot s write?
    fn writes(&self, s: usize) -> bool
        requires { s < 5 }
        ensures { result ≡ eqb (two_bits self.now.does s / 2) 1 }
    {
        two_bits(self.does, s) / 2 == 1
    }

    // Does a slot after the first write? Few kinds have one.
    fn writes_later(&self) -> bool
        ensures { result ≡ later self.now.does }
    {
        let does = self.does;
        (does / 32 % 2 == 1)
            | (does / 512 % 2 == 1)
            | (does / 8192 % 2 == 1)
            | (does / 131072 % 2 == 1)
    }

    // How many slots, from the first on, may read: of most kinds three.
    pub fn readers(&self) -> usize
        ensures { result ≡ readers self.now.does }
    {
        if self.does < 4096 {
            return 3;
        }
        SLOTS
    }

    // How many slots, from the first on, may write: of most kinds one.
    pub fn writers(&self) -> usize
        ensures { result ≡ writers self.now.does }
    {
        if self.writes_later() {
            return SLOTS;
        }
        1
    }

    // The word of slot s.
    fn word(&self, s: usize) -> u32
        requires { s < 5 }
        ensures { result ≡ word self.now.recs.now self.now.p (2 + s) }
    {
        let rec = Record {
            recs: self.recs,
            p: self.p,
        };
        rec.slot(s)
    }

    // The word of slot s where it reads, or absent.
    fn read_word(&self, s: usize) -> u32
        requires { s < 5 }
        ensures { result ≡ read_at (inst self.now.recs.now self.now.p) s }
    {
        if self.reads(s) {
            return self.word(s);
        }
        ABSENT
    }

    // The word of slot s where it writes, or absent. (Beside the one above: each is its own definition.)
    fn write_word(&self, s: usize) -> u32
        requires { s < 5 }
        ensures { result ≡ write_at (inst self.now.recs.now self.now.p) s }
    {
        if self.writes(s) {
            return self.word(s);
        }
        ABSENT
    }

    // The first registers that its slots read and write, and then the list reads.
    pub fn scan(&self, list: &[u32]) -> Firsts
        ensures { Heads (rest_reads (inst self.now.recs.now self.now.p) 0 ++ list.now) (rest_writes (inst self.now.recs.now self.now.p) 0) result }
    {
        let e = self.last_before(Firsts::of_list(list));
        let c = self.before(2, e);
        self.before(0, self.before(1, c))
    }

    // The last two slots come before the list: few kinds use them.
    fn last_before(&self, x: Firsts) -> Firsts
        ensures { (l : List ℕ) → Heads l [] x → Heads (rest_reads (inst self.now.recs.now self.now.p) 3 ++ l) (rest_writes (inst self.now.recs.now self.now.p) 3) result }
    {
        if self.does < 4096 {
            return x;
        }
        self.before(3, self.before(4, x))
    }

    // Slot s comes before the slots and the list of x.
    fn before(&self, s: usize, x: Firsts) -> Firsts
        requires { s < 5 }
        ensures { (l : List ℕ) → Heads (rest_reads (inst self.now.recs.now self.now.p) (s + 1) ++ l) (rest_writes (inst self.now.recs.now self.now.p) (s + 1)) x → Heads (rest_reads (inst self.now.recs.now self.now.p) s ++ l) (rest_writes (inst self.now.recs.now self.now.p) s) result }
    {
        x.after_read(self.read_word(s))
            .after_write(self.write_word(s))
    }
}
