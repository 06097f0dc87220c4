// A text cut into lines, and a line into words (specs/Text).
ghost use Rattle.std.specs.Prelude.{◌≡◌, ◌≤◌, ◌==◌, get_or, length};
ghost use Rattle.std.specs.List.{position_or_len, prefix_len};
ghost use Rattle.rolelist.specs.Text.{before, after, past, line, lines, word};

// How many bytes stand before the first b.
fn until(text: &[u8], b: u8) -> usize
    ensures count { result ≡ position_or_len (λ x. x == b) text.now }
    ensures few { result ≤ length text.now }
{
    text.iter().take_while(|x| **x != b).count()
}

// How many bs stand at the head.
fn run(text: &[u8], b: u8) -> usize
    ensures count { result ≡ prefix_len (λ x. x == b) text.now }
    ensures few { result ≤ length text.now }
{
    text.iter().take_while(|x| **x == b).count()
}

// What stands before the first b.
#[tactic(auto, using(crate::proofs::Cut::before_is))]
fn before(text: &[u8], b: u8) -> &[u8]
    ensures { result.now ≡ before b text.now }
{
    &text[..until(text, b)]
}

// What stands after it.
#[tactic(auto, using(crate::proofs::Cut::after_is, crate::proofs::Cut::all_left, crate::proofs::Cut::to_end))]
fn after(text: &[u8], b: u8) -> &[u8]
    ensures { result.now ≡ after b text.now }
{
    &text[text.len().min(until(text, b) + 1)..]
}

// What is left behind the bs at the head.
#[tactic(auto, using(crate::proofs::Cut::past_is, crate::proofs::Cut::all_left))]
fn past(text: &[u8], b: u8) -> &[u8]
    ensures { result.now ≡ past b text.now }
{
    &text[run(text, b)..]
}

// Line n, from 0.
#[tactic(auto, using(crate::proofs::Cut::line_more, crate::proofs::Cut::line_last))]
pub fn line(text: &[u8], n: usize) -> &[u8]
    ensures { result.now ≡ line n text.now }
{
    let mut rest = text;
    for _i in 0..n {
        rest = after(rest, b'\n');
    }
    before(rest, b'\n')
}

// How many lines end.
#[tactic(auto, using(crate::proofs::Cut::lines_are))]
pub fn lines(text: &[u8]) -> usize
    ensures count { result ≡ lines text.now }
    ensures few { result ≤ length text.now }
{
    text.iter().filter(|x| **x == b'\n').count()
}

// Word k of a line, from 0.
#[tactic(auto, using(crate::proofs::Cut::word_more, crate::proofs::Cut::word_last))]
pub fn word(line: &[u8], k: usize) -> &[u8]
    ensures { result.now ≡ word k line.now }
{
    let mut rest = line;
    for _i in 0..k {
        rest = after(past(rest, b' '), b' ');
    }
    before(past(rest, b' '), b' ')
}

// Byte i of a word, or 0 where it is shorter.
pub fn byte(word: &[u8], i: usize) -> u8
    ensures { result ≡ get_or word.now i 0 }
{
    match word.get(i) {
        Some(x) => *x,
        None => 0,
    }
}
