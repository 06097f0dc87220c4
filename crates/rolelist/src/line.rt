// A line of the list of kinds, word by word (specs/Line).
ghost use Rattle.std.specs.Prelude.{◌≡◌, ◌≤◌, drop};
ghost use Rattle.std.specs.List.{list_all, range_with_len};
ghost use Rattle.std.specs.Str.{bytes_eq};
ghost use Rattle.std.specs.Fmt.{decimal};
ghost use Rattle.rolelist.specs.Text.{word};
ghost use Rattle.rolelist.specs.Line.{is_slot, digit, are_slots, place_in, shape_of, arm_of, is_or_dash, are_forms, allowed, is_change, may_stand, are_changes, slots_at, is_name_letter, is_name, is_kind, is_note};

use crate::text::{byte, word};
use itoa::Buffer;

// The successors and the arms, as their words in the order of their numbers.
const SUCCESSORS: &[u8] = b"- goes parts cases";

const ARMS: &[u8] =
    b"const constF addr_of move select truth bin index check dopeLen load alloc layout_of signal fills store cat native stops deref writes other";

// What may stand in words 3 and 6.
const DASH: &[u8] = b"-";

const LIST: &[u8] = b"list";

const QUIET: &[u8] = b"quiet";

// The most bytes that a line has.
const LINE_BYTES: usize = 100;

// A slot's letter.
fn is_slot(c: u8) -> bool
    ensures { result ≡ is_slot c }
{
    matches!(c, b'-' | b'r' | b'w' | b'R' | b'W')
}

// The digit that stands for it.
pub fn digit(c: u8) -> u8
    ensures same { result ≡ digit c }
    ensures small { result ≤ 6 }
{
    match c {
        b'r' => 1,
        b'w' => 2,
        b'R' => 5,
        b'W' => 6,
        _ => 0,
    }
}

// Each byte is a slot's letter.
fn all_slots(w: &[u8]) -> bool
    ensures { result ≡ list_all (λ c. is_slot c) w.now }
{
    w.iter().all(|c| is_slot(*c))
}

// The slots of a kind, one letter each, five at most.
#[tactic(auto, using(crate::proofs::Every::all_is))]
fn are_slots(w: &[u8]) -> bool
    ensures { result ≡ are_slots w.now }
{
    (0 < w.len()) & (w.len() <= 5) & all_slots(w)
}

// A word's place among the first n of a text, or n.
#[tactic(auto, using(crate::proofs::Placed::place, crate::proofs::Placed::place_none))]
fn place_in(t: &[u8], n: usize, w: &[u8]) -> usize
    ensures same { result ≡ place_in t.now n w.now }
    ensures within { result ≤ n }
{
    for k in 0..n {
        if w == word(t, k) {
            return k;
        }
    }
    n
}

// The place of its successors, or 4.
pub fn shape_of(line: &[u8]) -> usize
    ensures same { result ≡ shape_of line.now }
    ensures within { result ≤ 4 }
{
    place_in(SUCCESSORS, 4, word(line, 4))
}

// The number of its arm, or 22.
pub fn arm_of(line: &[u8]) -> usize
    ensures same { result ≡ arm_of line.now }
    ensures within { result ≤ 22 }
{
    place_in(ARMS, 22, word(line, 5))
}

// A word that is there, or a dash.
fn is_or_dash(there: &[u8], w: &[u8]) -> bool
    ensures { result ≡ is_or_dash there.now w.now }
{
    (w == there) | (w == DASH)
}

// The least form and the greatest, as in 0..4.
fn are_forms(w: &[u8]) -> bool
    ensures { result ≡ are_forms w.now }
{
    (w.len() == 4)
        & (byte(w, 1) == b'.')
        & (byte(w, 2) == b'.')
        & (b'0' <= byte(w, 0))
        & (byte(w, 0) <= byte(w, 3))
        & (byte(w, 3) <= b'6')
}

// The form f, a digit, is one of them.
pub fn allowed(f: u8, line: &[u8]) -> bool
    ensures { result ≡ allowed f line.now }
{
    let w = word(line, 7);
    (byte(w, 0) <= f) & (f <= byte(w, 3))
}

// What stands behind the first two bytes of a word.
fn behind(w: &[u8]) -> &[u8]
    ensures { result.now ≡ drop 2 w.now }
{
    match w {
        [_, _, rest @ ..] => rest,
        _ => &[],
    }
}

// Word k says what an allowed form changes, a later one than word k - 1.
fn is_change(k: usize, line: &[u8]) -> bool
    ensures { result ≡ is_change k line.now }
{
    let w = word(line, k);
    let f = byte(w, 0);
    let earlier = byte(word(line, k.saturating_sub(1)), 0);
    (byte(w, 1) == b'=') & are_slots(behind(w)) & allowed(f, line) & ((k == 8) | (earlier < f))
}

// Word k says so, or is not there.
fn may_stand(k: usize, line: &[u8]) -> bool
    ensures { result ≡ may_stand k line.now }
{
    word(line, k).is_empty() | is_change(k, line)
}

// Each of words 8 to 14 does.
fn all_stand(line: &[u8]) -> bool
    ensures { result ≡ list_all (λ k. may_stand k line.now) (range_with_len 8 7) }
{
    (8..15).all(|k| may_stand(k, line))
}

// Words 8 to 14 say so, as many as there are, and there are no more.
#[tactic(auto, using(crate::proofs::Every::all_is))]
fn are_changes(line: &[u8]) -> bool
    ensures { result ≡ are_changes line.now }
{
    all_stand(line) & word(line, 15).is_empty()
}

// The slots at the form f, a digit: those that a change of f gives, or else those of the kind.
#[tactic(auto, using(crate::proofs::Placed::slots, crate::proofs::Placed::slots_none))]
pub fn slots_at(line: &[u8], f: u8) -> &[u8]
    ensures { result.now ≡ slots_at f line.now }
{
    for k in 8..15 {
        let w = word(line, k);
        if byte(w, 0) == f {
            return behind(w);
        }
    }
    word(line, 2)
}

// A letter of a name.
fn is_name_letter(c: u8) -> bool
    ensures { result ≡ is_name_letter c }
{
    (b'0' <= c) & (c <= b'9') | (b'A' <= c) & (c <= b'Z') | (b'a' <= c) & (c <= b'z')
}

// Each byte is a letter of a name.
fn all_letters(w: &[u8]) -> bool
    ensures { result ≡ list_all (λ c. is_name_letter c) w.now }
{
    w.iter().all(|c| is_name_letter(*c))
}

// A name.
#[tactic(auto, using(crate::proofs::Every::all_is))]
fn is_name(w: &[u8]) -> bool
    ensures { result ≡ is_name w.now }
{
    all_letters(w)
}

// Its first word is the number k.
fn is_numbered(k: usize, line: &[u8]) -> bool
    ensures { result ≡ bytes_eq (word 0 line.now) (decimal k) }
{
    word(line, 0) == Buffer::new().format(k).as_bytes()
}

// A line of kind k.
#[tactic(auto, unfolding(crate::specs::Line::is_line))]
pub fn is_kind(line: &[u8], k: usize) -> bool
    ensures { result ≡ is_kind k line.now }
{
    (line.len() <= LINE_BYTES)
        & is_numbered(k, line)
        & is_name(word(line, 1))
        & are_slots(word(line, 2))
        & is_or_dash(LIST, word(line, 3))
        & (shape_of(line) < 4)
        & (arm_of(line) < 22)
        & is_or_dash(QUIET, word(line, 6))
        & are_forms(word(line, 7))
        & are_changes(line)
}

// A line that is passed over: it has no word, or its first one begins with #.
pub fn is_note(line: &[u8]) -> bool
    ensures { result ≡ is_note line.now }
{
    match word(line, 0) {
        [c, ..] => *c == b'#',
        [] => true,
    }
}
