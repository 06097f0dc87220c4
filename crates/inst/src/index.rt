// Two sorts of index that no sum or call confuses (01, "How to write each place": tuple structs for register number and
// block number, each made after its range test, or where a proof stands for it). They are two types by design; one type with a
// parameter for the sort would say the same in more words.
ghost use Rattle.std.specs.Prelude.{◌≡◌, ◌+◌, ◌*◌, ◌<◌, length, get_or};
ghost use Rattle.inst.specs.Index.{reg_of, block_of};

#[derive(Clone, Copy, PartialEq, Eq, PartialOrd, Ord, Debug)]
pub struct Reg(u32);

#[derive(Clone, Copy, PartialEq, Eq, PartialOrd, Ord, Debug)]
pub struct BlockId(u32);

impl Reg {
    // What fills a place of `Regs` that holds none: it is never handed out.
    pub(crate) const BLANK: Reg = Reg(0);

    // The register n of count, or none.
    #[tactic(auto, unfolding(crate::specs::Index::reg_of))]
    pub fn new(n: u32, count: usize) -> Option<Reg>
        ensures { result ≡ reg_of n count }
    {
        ((n as usize) < count).then_some(Reg(n))
    }

    // Its place in a list of registers.
    pub fn at(self) -> usize
        ensures { result ≡ self.0 }
    {
        self.0 as usize
    }

    // Its number, as a record has it.
    pub fn number(self) -> u32
        ensures { result ≡ self.0 }
    {
        self.0
    }
}

impl BlockId {
    // The block n of count, or none.
    #[tactic(auto, unfolding(crate::specs::Index::block_of))]
    pub fn new(n: u32, count: u32) -> Option<BlockId>
        ensures { result ≡ block_of n count }
    {
        (n < count).then_some(BlockId(n))
    }

    // The block n of count, where a proof stands for the test.
    pub fn known(n: u32, count: u32) -> BlockId
        requires { n < count }
        ensures { result.0 ≡ n }
    {
        BlockId(n)
    }

    // The record that it begins at.
    pub fn start(self, bounds: &[u32]) -> usize
        requires { 2 * self.0 + 1 < length bounds.now }
        ensures { result ≡ get_or bounds.now (2 * self.0) 0 }
    {
        bounds[2 * self.at()] as usize
    }

    // The record past its last.
    pub fn past(self, bounds: &[u32]) -> usize
        requires { 2 * self.0 + 1 < length bounds.now }
        ensures { result ≡ get_or bounds.now (2 * self.0 + 1) 0 }
    {
        bounds[2 * self.at() + 1] as usize
    }

    // Its place in a list of blocks.
    pub fn at(self) -> usize
        ensures { result ≡ self.0 }
    {
        self.0 as usize
    }

    // Its number, as a record has it.
    pub fn number(self) -> u32
        ensures { result ≡ self.0 }
    {
        self.0
    }
}
