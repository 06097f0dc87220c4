// A record's list under new names (01, "The move": "Changed lists are appended to the operands").
ghost use Rattle.std.specs.Prelude.{◌≡◌, ◌+◌, ◌≤◌, length};
ghost use Rattle.rename.specs.Names.{named, list_changes, Appended};

use crate::names::name;
use inst::index::Reg;

// The new name of the register that word w stands for; there are no other names.
fn renamed(w: u32, names: &[u64]) -> u32
    ensures { result ≡ named names.now w }
{
    let Some(r) = Reg::new(w, names.len()) else {
        return w;
    };
    name(names, r)
}

// Does this list of operands change?
pub fn changes(list: &[u32], names: &[u64]) -> bool
    ensures { result ≡ list_changes names.now list.now }
{
    list.iter().any(|w| renamed(*w, names) != *w)
}

// The new names of the n operands from s on, stored from o on. (By number, since both lie in one slice: taken apart there for an
// iterator over both it is longer.)
pub fn append(ops: &mut [u32], s: usize, n: usize, o: usize, names: &[u64])
    requires { (s + n ≤ o) × (o + n ≤ length ops.old) }
    ensures { Appended s o names.now ops.old ops.new n }
{
    for k in 0..n {
        ops[o + k] = renamed(ops[s + k], names);
    }
}
