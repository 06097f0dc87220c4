// Cause 3 (01, "The call": blocks lie end to end over all instructions, no end below its start).
ghost use Rattle.std.specs.Prelude.{◌≡◌};
ghost use Rattle.model.specs.Refusal.{gaps};

// Do the blocks not lie end to end from 0 to n?
pub fn gaps(bounds: &[u32], n: usize) -> bool
    ensures { result ≡ gaps 0 n bounds.now }
{
    let mut at = 0u32;
    for pair in bounds.chunks_exact(2) {
        if (pair[0] != at) | (pair[1] < pair[0]) {
            return true;
        }
        at = pair[1];
    }
    (bounds.len() % 2 == 1) | (at as usize != n)
}
