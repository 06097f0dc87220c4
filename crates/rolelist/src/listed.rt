// The whole list: which of its lines can stand where they are (specs/Listed).
ghost use Rattle.std.specs.Prelude.{◌≡◌, ◌&&◌, not};
ghost use Rattle.std.specs.Str.{bytes_eq};
ghost use Rattle.rolelist.specs.Text.{line, lines, word};
ghost use Rattle.rolelist.specs.Line.{is_note};
ghost use Rattle.rolelist.specs.Listed.{kinds, named, stands, complete};

use crate::line::{is_kind, is_note};
use crate::text::{line, word};

// How many kinds there are, and the most bytes that a list has.
const KINDS: usize = 101;

pub const LIST_BYTES: usize = 32_768;

// Line m is a kind of this name.
fn has_name(list: &[u8], m: usize, name: &[u8]) -> bool
    ensures { result ≡ (not (is_note (line m list.now)) && bytes_eq (word 1 (line m list.now)) name.now) }
{
    let text = line(list, m);
    !is_note(text) && word(text, 1) == name
}

// An earlier line has the name of line n.
#[tactic(auto, unfolding(crate::specs::Listed::named))]
fn named(list: &[u8], n: usize) -> bool
    ensures { result ≡ named n list.now }
{
    let name = word(line(list, n), 1);
    (0..n).any(|m| has_name(list, m, name))
}

// Line n, behind k kinds, is passed over, or is the line of the kind that comes next, whose name is new.
#[tactic(auto, unfolding(crate::specs::Listed::stands))]
pub fn stands(list: &[u8], n: usize, k: usize) -> bool
    requires { k ≡ kinds n list.now }
    ensures { result ≡ stands n list.now }
{
    let text = line(list, n);
    is_note(text) || k < KINDS && is_kind(text, k) && !named(list, n)
}

// The list of n lines and k kinds ends with its last line, has all kinds, and is no longer than there is room for.
#[tactic(auto, unfolding(crate::specs::Listed::complete))]
pub fn complete(list: &[u8], n: usize, k: usize) -> bool
    requires { (n ≡ lines list.now) × (k ≡ kinds n list.now) }
    ensures { result ≡ complete list.now }
{
    line(list, n).is_empty() && k == KINDS && list.len() <= LIST_BYTES
}
