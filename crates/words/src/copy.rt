// Words copied between lent slices, and moved inside one, also where both places overlap: `sets xs d vs` is xs with vs stored from index
// d on. Loops of our own: the library's `copy_from_slice` and `copy_within` call C's memmove, and the archive for C takes memcpy and
// memset alone (include/virdzeba.h; tests/c/check.sh looks).
ghost use Rattle.std.specs.Prelude.{◌≡◌, ◌+◌, ◌≤◌, length, take, drop};
ghost use Rattle.std.proofs.lemmas.List.Edits.{sets};

// n words of `from`, at index s, go to index d of `to`.
pub fn copy(from: &[u32], s: usize, n: usize, to: &mut [u32], d: usize)
    requires { (s + n ≤ length from.now) × (d + n ≤ length to.old) }
    ensures { to.new ≡ sets to.old d (take n (drop s from.now)) }
{
    for i in 0..n {
        to[d + i] = from[s + i];
    }
}

// n words of xs go from index s down to index d: the first one first.
pub fn slide(xs: &mut [u32], s: usize, d: usize, n: usize)
    requires { (d ≤ s) × (s + n ≤ length xs.old) }
    ensures { xs.new ≡ sets xs.old d (take n (drop s xs.old)) }
{
    for i in 0..n {
        xs[d + i] = xs[s + i];
    }
}

// n words of xs go from index s up to index d: the last one first.
pub fn lift(xs: &mut [u32], s: usize, d: usize, n: usize)
    requires { (s ≤ d) × (d + n ≤ length xs.old) }
    ensures { xs.new ≡ sets xs.old d (take n (drop s xs.old)) }
{
    for i in (0..n).rev() {
        xs[d + i] = xs[s + i];
    }
}
