// The table of roles as source text, printed from the list of kinds (specs/Source). Each function writes behind what is there; `source`
// begins anew.
ghost use Rattle.std.specs.Prelude.{◌≡◌, false, cond, List, [], ◌∷◌, ◌++◌, map, suc, ◌+◌, ◌*◌, ◌<◌, ◌≤◌, get_or, length, codes};
ghost use Rattle.std.specs.Fmt.{decimal};
ghost use Rattle.arrayvec.specs.ArrayVec.{array_vec_len};
ghost use Rattle.words.specs.Lists.{concat, range, upto};
ghost use Rattle.rolelist.specs.Text.{line, lines};
ghost use Rattle.rolelist.specs.Line.{digit, is_note};
ghost use Rattle.rolelist.specs.Listed.{unread};
ghost use Rattle.rolesource.specs.Source.{bit, hex, cell, row, source};

use arrayvec::ArrayVec;
use itoa::Buffer;
use rolelist::line::{allowed, arm_of, digit, is_note, shape_of, slots_at};
use rolelist::listed::{complete, stands};
use rolelist::text::{line, lines, word};

// Room for a table: its heading takes 2,000 bytes at most, a row 208, and the end 3.
pub const TEXT_BYTES: usize = 23_040;

// What is printed.
pub type Text = ArrayVec<u8, TEXT_BYTES>;

// What stands before the rows.
const HEADING: &[u8] =
    b"// The table of roles: of each kind eight words, for forms 0 to 6 and for any other. Printed by rolesource from its list of kinds,\n\
// crates/rolesource/stdin, whose lines stand here as comments; `make roles` prints it anew. The digits of a word, from the right: one\n\
// for each of five slots, the first slot first (0 nothing, 1 read, 2 written, 5 and 6 the same where it may be absent); how the\n\
// successors lie (0 none, 1 as in a Br, 2 as in a CondBr, 3 as in a Case), and to that 4 for a list and 8 where the form is allowed;\n\
// two for the arm of 000's `analyse`, and to these 20 where the kind stands in `writes_nothing`.\n\
pub(crate) const ROWS: [u32; 808] = [\n";

// These bytes.
fn put(out: &mut Text, bytes: &[u8])
    requires { array_vec_len out.old + length bytes.now ≤ 23040 }
    ensures text { out.new.items ≡ out.old.items ++ bytes.now }
    ensures len { array_vec_len out.new ≡ array_vec_len out.old + length bytes.now }
{
    out.try_extend_from_slice(bytes).unwrap();
}

// A digit of a word of the table.
fn put_digit(out: &mut Text, n: usize)
    requires { array_vec_len out.old < 23040 }
    ensures text { out.new.items ≡ out.old.items ++ hex n ∷ [] }
    ensures len { array_vec_len out.new ≡ array_vec_len out.old + 1 }
{
    out.push(b"0123456789abcdef"[n % 16]);
}

// The digit of slot s.
fn put_slot(out: &mut Text, slots: &[u8], s: usize)
    requires { array_vec_len out.old < 23040 }
    ensures text { out.new.items ≡ out.old.items ++ hex (digit (get_or slots.now s 45)) ∷ [] }
    ensures len { array_vec_len out.new ≡ array_vec_len out.old + 1 }
{
    let letter = if s < slots.len() { slots[s] } else { b'-' };
    put_digit(out, digit(letter) as usize);
}

// 1 for true.
fn bit(b: bool) -> usize
    ensures { result ≡ bit b }
{
    if b { 1 } else { 0 }
}

// The digits of the slots, from the last to the first.
fn put_slots(out: &mut Text, slots: &[u8])
    requires { array_vec_len out.old + 5 ≤ 23040 }
    ensures text { out.new.items ≡ out.old.items ++ map (λ s. hex (digit (get_or slots.now s 45))) (4 ∷ 3 ∷ 2 ∷ 1 ∷ 0 ∷ []) }
    ensures len { array_vec_len out.new ≡ array_vec_len out.old + 5 }
{
    put_slot(out, slots, 4);
    put_slot(out, slots, 3);
    put_slot(out, slots, 2);
    put_slot(out, slots, 1);
    put_slot(out, slots, 0);
}

// The word of the form f, a digit.
fn put_cell(out: &mut Text, line: &[u8], f: u8)
    requires { array_vec_len out.old + 12 ≤ 23040 }
    ensures text { out.new.items ≡ out.old.items ++ cell f line.now }
    ensures len { array_vec_len out.new ≡ array_vec_len out.old + 12 }
{
    let arm = arm_of(line);
    let quiet = bit(word(line, 6) == b"quiet".as_slice());
    let list = bit(word(line, 3) == b"list".as_slice());
    let allowed = bit(allowed(f, line));
    put(out, b" 0x");
    put_digit(out, arm / 16 + 2 * quiet);
    put_digit(out, arm);
    put_digit(out, shape_of(line) % 4 + 4 * list + 8 * allowed);
    put_slots(out, slots_at(line, f));
    put(out, b",");
}

// The words at forms 0 to 6 and at any other.
fn put_cells(out: &mut Text, line: &[u8])
    requires { array_vec_len out.old + 96 ≤ 23040 }
    ensures text { out.new.items ≡ out.old.items ++ concat (map (λ f. cell f line.now) (range 48 8)) }
    ensures len { array_vec_len out.new ≡ array_vec_len out.old + 96 }
{
    for f in b'0'..b'8' {
        put_cell(out, line, f);
    }
}

// The row of a line that is a kind's.
fn put_row(out: &mut Text, line: &[u8])
    requires { (is_note line.now ≡ false) × (length line.now ≤ 100) × (array_vec_len out.old + 208 ≤ 23040) }
    ensures text { out.new.items ≡ out.old.items ++ row line.now }
    ensures short { array_vec_len out.new ≤ array_vec_len out.old + 208 }
{
    put(out, b"    // ");
    put(out, line);
    put(out, b"\n   ");
    put_cells(out, line);
    put(out, b"\n");
}

// What is printed for a line behind k kinds; returns how many kinds there are then.
fn put_line(out: &mut Text, line: &[u8], k: usize) -> usize
    requires { (is_note line.now ≡ false → (k < 101) × (length line.now ≤ 100)) × (array_vec_len out.old ≤ 2000 + 208 * k) }
    ensures count { result ≡ cond (is_note line.now) k (suc k) }
    ensures text { out.new.items ≡ out.old.items ++ row line.now }
    ensures room { array_vec_len out.new ≤ 2000 + 208 * result }
{
    if is_note(line) {
        return k;
    }
    put_row(out, line);
    k + 1
}

// The rows of the lines, until one cannot stand; returns its number, or 0 where the list is whole.
fn put_lines(out: &mut Text, list: &[u8]) -> usize
    requires { (length list.now ≤ 32769) × (array_vec_len out.old ≤ 2000) }
    ensures unread { result ≡ unread list.now }
    ensures text { result ≡ 0 → out.new.items ≡ out.old.items ++ concat (map (λ n. row (line n list.now)) (upto (lines list.now))) }
    ensures room { result ≡ 0 → array_vec_len out.new + 3 ≤ 23040 }
{
    let n = lines(list);
    let mut k = 0;
    for m in 0..n {
        if !stands(list, m, k) {
            return m + 1;
        }
        k = put_line(out, line(list, m), k);
    }
    if complete(list, n, k) { 0 } else { n + 1 }
}

// The number of the line that stops the reading.
fn put_unread(out: &mut Text, n: usize)
    requires { array_vec_len out.old ≤ 2000 }
    ensures { out.new.items ≡ out.old.items ++ codes "unread " ++ decimal n ++ codes "\n" }
{
    put(out, b"unread ");
    put(out, Buffer::new().format(n).as_bytes());
    put(out, b"\n");
}

// What comes of a list: the table, or the line that stops the reading. (Of a list of any length that line might be past a `usize`.)
pub fn source(list: &[u8], out: &mut Text)
    requires { length list.now ≤ 32769 }
    ensures { out.new.items ≡ source list.now }
{
    out.clear();
    put(out, HEADING);
    let bad = put_lines(out, list);
    if bad == 0 {
        put(out, b"];\n");
    } else {
        out.clear();
        put_unread(out, bad);
    }
}
