// The new registers' types, written behind those in use once it is known that they fit (01, "The move"; "room past the counts in
// use keeps what it held"). A member that was given the register next in line made it, and any other got one that was free.
ghost use Rattle.std.specs.Prelude.{◌≡◌, ◌+◌, ◌*◌, ◌≤◌, ◌<◌, length, get_or, take};
ghost use Rattle.inst.specs.Index.{word_of, Among};
ghost use Rattle.pool.specs.Pool.{width, typed};
ghost use Rattle.pool.specs.Types.{TypeAdded, TypesFit, over};

use inst::index::Reg;
use position::{DEF, NEW, PLACE};

// The type of a signal reference, as it stands in the type words.
const SIG: u32 = 4;

// A signal reference takes the next register as well.
pub(crate) fn width_of(ty: u32) -> u32
    ensures { result ≡ width ty }
{
    1 + u32::from(ty == SIG)
}

// The type of register d once more, at n, if it is n that was given. Returns the types in use then.
fn add_type(types: &mut [u32], n: usize, d: Option<Reg>, reg: u32) -> usize
    requires { Among (length types.old) d × (reg ≡ n → (word_of d ≡ 4294967295 → ⊥) × (n + width (get_or types.old (word_of d) 0) ≤ length types.old)) }
    ensures { TypeAdded n (word_of d) reg types.old types.new result }
{
    if reg as usize != n {
        return n;
    }
    let Some(k) = d else {
        return n;
    };
    let ty = types[k.at()];
    let width = width_of(ty) as usize;
    types[n] = ty;
    if width == 2 {
        types[n + 1] = 0;
    }
    n + width
}

// The types of the registers that `allot` gave, where r are in use. Returns how many are in use then.
pub fn add_types(types: &mut [u32], r: u32, w: &[u32], m: usize) -> usize
    requires { TypesFit r m types.old w.now }
    ensures { (types.new ≡ over (typed types.old w.now m (take r types.old)) types.old) × (result ≡ length (typed types.old w.now m (take r types.old))) }
{
    let count = r as usize;
    let mut n = count;
    for p in 0..m {
        let b = PLACE * p;
        n = add_type(types, n, Reg::new(w[b + DEF], count), w[b + NEW]);
    }
    n
}
