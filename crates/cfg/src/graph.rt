// Where a block goes (01, "The walk": "A block's successors are those of its last instruction"; in the Rust `succs`). The
// successors lie in the lent words: in the record of the branch, or in the case targets.
ghost use Rattle.std.specs.Prelude.{◌≡◌, ◌+◌, ◌*◌, ◌≤◌, ◌<◌, take, drop};
ghost use Rattle.model.specs.Picture.{inst, end_of, end_succs, table, succs};
ghost use Rattle.inst.specs.Record.{Within, Known};
ghost use Rattle.cfg.specs.Graph.{Graph};

use crate::succs::Succs;
use inst::index::BlockId;
use inst::record::Record;
use inst::table::{Shape, Table};

// A function's graph: the table of roles, where each block begins and ends in the records, and the case tables. Its ghost field says
// what acceptance gives of them, which is shown once, where a `Func` is made.
#[derive(Clone, Copy)]
pub struct Func<'a> {
    pub table: &'a Table,
    pub bounds: &'a [u32],
    pub recs: &'a [u32],
    pub pairs: &'a [u32],
    pub targets: &'a [u32],
    ghost graphed: { Graph bounds.now recs.now pairs.now targets.now },
}

impl<'a> Func<'a> {
    ghost use Rattle.cfg.specs.Func.{blocks_of, drawn_of};

    // How many blocks it has.
    pub fn blocks(&self) -> u32
        ensures { result ≡ blocks_of self.now }
    {
        (self.bounds.len() / 2) as u32
    }

    // The successors of block b.
    pub fn succs(&self, b: BlockId) -> Succs<'a>
        requires { b.0 < blocks_of self.now }
        ensures { (result.list.now ≡ succs (drawn_of self.now) b.0) × (result.count ≡ blocks_of self.now) }
    {
        Succs {
            list: self.next_of(b),
            count: self.blocks(),
        }
    }

    // Their numbers.
    fn next_of(&self, b: BlockId) -> &'a [u32]
        requires { b.0 < blocks_of self.now }
        ensures { result.now ≡ succs (drawn_of self.now) b.0 }
    {
        let start = b.start(self.bounds);
        let past = b.past(self.bounds);
        if past <= start {
            return &[];
        }
        self.targets_of(past - 1)
    }

    // Where record p goes if it ends a block: as many words of its payload as its shape's number says, or a table. (No `match`: of that
    // LLVM makes an indirect jump, which live-in, going from block to block, pays for each time that it is not foreseen. And the row at form
    // 0: the successors lie alike at each.)
    fn targets_of(&self, p: usize) -> &'a [u32]
        requires { Known self.now.recs.now p }
        ensures { result.now ≡ end_succs (drawn_of self.now) (end_of (inst self.now.recs.now p)) }
    {
        let rec = Record { recs: self.recs, p };
        let shape = self.table.row(rec.kind(), 0).shape();
        if matches!(shape, Shape::Cases) {
            return self.case_targets(rec.payload(0));
        }
        self.payload(p, shape as usize)
    }

    // The first n payload words of record p.
    fn payload(&self, p: usize, n: usize) -> &'a [u32]
        requires { Within self.now.recs.now p × (n ≤ 7) }
        ensures { result.now ≡ take n (drop (16 * p + 9) self.now.recs.now) }
    {
        let a = 16 * p + 9;
        let e = a + n;
        &self.recs[a..e]
    }

    // The targets of case table k, none past the last.
    fn case_targets(&self, k: u32) -> &'a [u32]
        ensures { result.now ≡ table (drawn_of self.now) k }
    {
        let i = 2 * k as usize;
        if self.pairs.len() <= i + 1 {
            return &[];
        }
        let a = self.pairs[i] as usize;
        let e = a + self.pairs[i + 1] as usize;
        &self.targets[a..e]
    }
}
