// The lines of a text (document 01, "One listing whole"; specs/Text). Each function writes behind what is there.
ghost use Rattle.std.specs.Prelude.{◌≡◌, [], ◌∷◌, ◌++◌, ◌+◌, ◌*◌, ◌<◌, ◌≤◌, length};
ghost use Rattle.std.specs.Fmt.{decimal};
ghost use Rattle.arrayvec.specs.ArrayString.{array_string_len};
ghost use Rattle.report.specs.Text.{line, lines_text, last_line};

use crate::Text;
use itoa::Buffer;
use model::Answer;

// A number, which has ten digits at most, and an ASCII character behind it.
fn put_number(out: &mut Text, n: u32, end: char)
    requires { (end < 128) × (array_string_len out.old + 11 ≤ 640) }
    ensures text { out.new.bytes ≡ out.old.bytes ++ decimal n ++ end ∷ [] }
    ensures short { array_string_len out.new ≤ array_string_len out.old + 11 }
{
    out.push_str(Buffer::new().format(n));
    out.push(end);
}

// The line of these numbers.
fn put_line(out: &mut Text, numbers: &[u32])
    requires { (0 < length numbers.now) × (array_string_len out.old + 11 * length numbers.now ≤ 640) }
    ensures text { out.new.bytes ≡ out.old.bytes ++ line numbers.now }
    ensures short { array_string_len out.new ≤ array_string_len out.old + 11 * length numbers.now }
{
    if let Some((last, front)) = numbers.split_last() {
        for n in front {
            put_number(out, *n, ' ');
        }
        put_number(out, *last, '\n');
    }
}

// The lines of rounds, six numbers each.
pub fn put_lines(out: &mut Text, numbers: &[u32])
    requires { array_string_len out.old + 11 * length numbers.now ≤ 640 }
    ensures text { out.new.bytes ≡ out.old.bytes ++ lines_text numbers.now }
    ensures short { array_string_len out.new ≤ array_string_len out.old + 11 * length numbers.now }
{
    for line in numbers.chunks_exact(6) {
        put_line(out, line);
    }
}

// The last line: done or short with the rounds, or refused with its number.
pub fn put_answer(out: &mut Text, answer: Answer)
    requires { array_string_len out.old + 19 ≤ 640 }
    ensures { out.new.bytes ≡ out.old.bytes ++ last_line answer }
{
    let (word, n) = match answer {
        Answer::Done(u) => ("done ", u.rounds),
        Answer::Short(u) => ("short ", u.rounds),
        Answer::Refused(r) => ("refused ", r.number()),
    };
    out.push_str(word);
    put_number(out, n, '\n');
}
