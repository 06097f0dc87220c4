// Rows of bits in lent 64-bit words: number r is bit r % 64 of word r / 64. As in the Rust's `bit`, what lies past the row's end is
// not in it; whoever puts in or takes out shows that it does not lie there, so that neither asks.
//
// The rows of several blocks lie in one slice, a block's row from word `at` on. Bit r of that row is bit 64 * at + r of the
// slice, so the definitions speak of one row, and every law holds for each. (A part lent as `&mut words[a..e]` leaves the caller its
// start, end and sizes to show, and the whole to put together again.)
ghost use Rattle.std.specs.Prelude.{◌≡◌, ◌+◌, ◌*◌, ◌^◌, ◌≤◌, ◌<◌, length};
ghost use Rattle.words.specs.Bits.{width, is_in, set_bit, unset_bit, ones_in};

// The words of a row of n numbers.
pub fn width(n: usize) -> usize
    requires { n ≤ 65536 }
    ensures { result ≡ width n }
{
    n.div_ceil(64)
}

// Is r in the row that begins at word `at`?
#[tactic(auto, using(crate::proofs::Rows::is_in_at, crate::proofs::Rows::in_past))]
pub fn bit_in(words: &[u64], at: usize, r: usize) -> bool
    requires { at ≤ length words.now }
    ensures { result ≡ is_in words.now (64 * at + r) }
{
    words
        .get(at + r / 64)
        .is_some_and(|w| (*w >> (r % 64)) % 2 == 1)
}

// Puts r into the row that begins at word `at`.
#[tactic(auto, using(crate::proofs::Rows::set_bit_at))]
pub fn set_in(words: &mut [u64], at: usize, r: usize)
    requires { 64 * at + r < 64 * length words.old }
    ensures { words.new ≡ set_bit words.old (64 * at + r) }
{
    words[at + r / 64] |= 1 << (r % 64);
}

// Takes r out of the row that begins at word `at`.
#[tactic(auto, using(crate::proofs::Rows::unset_bit_at))]
pub fn unset_in(words: &mut [u64], at: usize, r: usize)
    requires { 64 * at + r < 64 * length words.old }
    ensures { words.new ≡ unset_bit words.old (64 * at + r) }
{
    words[at + r / 64] &= !(1 << (r % 64));
}

// How many numbers are in the row. The bound is there for the sum: 2^58 full words have 2^64 bits.
pub fn count(row: &[u64]) -> usize
    requires { length row.now ≤ 2 ^ 57 }
    ensures { result ≡ ones_in row.now }
{
    row.iter().map(|w| w.count_ones() as usize).sum()
}
