// 32-bit words in lent bytes, little-endian.
ghost use Rattle.std.specs.Prelude.{◌≡◌, [], ◌∷◌, ◌+◌, ◌*◌, ◌<◌, ◌≤◌, length, take, drop};
ghost use Rattle.std.proofs.lemmas.List.Edits.{sets};
ghost use Rattle.words.specs.Bytes.{word, words_of, bytes_of};

// The word whose four bytes begin at `at`.
pub fn word_at(bytes: &[u8], at: usize) -> u32
    requires { at + 4 ≤ length bytes.now }
    ensures { result ≡ word bytes.now at }
{
    u32::from_le_bytes([bytes[at], bytes[at + 1], bytes[at + 2], bytes[at + 3]])
}

// The four bytes from `at` on become those of w.
#[tactic(auto, using(crate::proofs::Copying::put_sets), unfolding(crate::specs::Bytes::bytes_of))]
pub fn put_word(bytes: &mut [u8], at: usize, w: u32)
    requires { at + 4 ≤ length bytes.old }
    ensures { bytes.new ≡ sets bytes.old at (bytes_of (w ∷ [])) }
{
    bytes[at..at + 4].copy_from_slice(&w.to_le_bytes());
}

// All of `out` becomes the words that begin at `at`.
#[tactic(auto, using(crate::proofs::Encoding::get_more, crate::proofs::Encoding::get_all), unfolding(crate::specs::Bytes::words_of))]
pub fn get_words(bytes: &[u8], at: usize, out: &mut [u32])
    requires { at + 4 * length out.old ≤ length bytes.now }
    ensures { out.new ≡ words_of (take (4 * length out.old) (drop at bytes.now)) }
{
    for (i, w) in out.iter_mut().enumerate() {
        *w = word_at(bytes, at + 4 * i);
    }
}

// The bytes from `at` on become those of all the words.
#[tactic(auto, using(crate::proofs::Encoding::put_more), unfolding(crate::specs::Bytes::bytes_of))]
pub fn put_words(bytes: &mut [u8], at: usize, words: &[u32])
    requires { at + 4 * length words.now ≤ length bytes.old }
    ensures { bytes.new ≡ sets bytes.old at (bytes_of words.now) }
{
    for (i, w) in words.iter().enumerate() {
        put_word(bytes, at + 4 * i, *w);
    }
}
