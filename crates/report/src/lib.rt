// The text of `sinkrounds` as a function from bytes to text (01, "One listing whole"; specs/Report).
#![tactic(auto)]

mod text; // text.rt: a text's lines

ghost use Rattle.std.specs.Prelude.{◌≡◌, ◌++◌, ◌≤◌};
ghost use Rattle.arrayvec.specs.ArrayString.{array_string_len};
ghost use Rattle.model.specs.Pass.{rounds};
ghost use Rattle.report.specs.Report.{report_of, ran_text};

use crate::text::{put_answer, put_lines};
use arrayvec::ArrayString;
use host::run::sink_bytes;
use layout::{OPERANDS, PICTURE_BYTES, REGISTERS};
use rounds::state::Ran;

// Room for a text: two headings, at most eight lines, and the answer take 602 bytes.
pub const TEXT_BYTES: usize = 640;

// What is printed.
pub type Text = ArrayString<TEXT_BYTES>;

// What comes behind the heading of a call that was run.
fn put_ran(out: &mut Text, ran: &Ran)
    requires { (rounds ran.now.answer ≤ 8) × (array_string_len out.old ≤ 41) }
    ensures { out.new.bytes ≡ out.old.bytes ++ ran_text ran.now.answer ran.now.lines }
{
    put_lines(out, &ran.lines[..6 * ran.answer.rounds() as usize]);
    out.push_str("answer rounds\n");
    put_answer(out, ran.answer);
}

// What `sinkrounds` prints for this input.
pub fn report(input: &[u8]) -> Text
    ensures { result.bytes ≡ report_of input.now }
{
    let mut result = [0; PICTURE_BYTES];
    let mut text = Text::new();
    text.push_str("round from into moved registers operands\n");
    match sink_bytes(input, &mut result, REGISTERS, OPERANDS) {
        Some(ran) => put_ran(&mut text, &ran),
        None => text.push_str("answer rounds\nunread 0\n"),
    }
    text
}
