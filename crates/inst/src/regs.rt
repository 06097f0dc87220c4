// A few registers and how many they are, in one struct.
ghost use Rattle.std.specs.Prelude.{◌≡◌, [], ◌++◌, ◌+◌, ◌≤◌, length};

use crate::index::Reg;

// At most N registers: the first `count` places are in use.
#[derive(Clone, Copy)]
pub struct Regs<const N: usize> {
    regs: [Reg; N],
    count: usize,
    ghost few: { count ≤ N },
}

impl<const N: usize> Regs<N> {
    ghost use Rattle.inst.specs.Index.{one};
    ghost use Rattle.inst.specs.Regs.{held, numbers};

    // None yet.
    pub(crate) fn new() -> Regs<N>
        ensures numbers { numbers result ≡ [] }
        ensures count { result.count ≡ 0 }
    {
        Regs {
            regs: [Reg::BLANK; N],
            count: 0,
        }
    }

    // Register r, if it is one, comes after them.
    pub(crate) fn with(self, r: Option<Reg>) -> Regs<N>
        requires { self.count + length (one r) ≤ N }
        ensures numbers { numbers result ≡ numbers self.entry ++ one r }
        ensures count { result.count ≡ self.entry.count + length (one r) }
    {
        let Some(x) = r else {
            return self;
        };
        let mut regs = self.regs;
        regs[self.count] = x;
        Regs {
            regs,
            count: self.count + 1,
        }
    }

    // Those in use, as a slice.
    pub fn as_slice(&self) -> &[Reg]
        ensures { result.now ≡ held self.now }
    {
        &self.regs[..self.count]
    }
}
