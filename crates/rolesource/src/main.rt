// `rolesource`: a list of kinds on standard input, the table of roles as source text on standard output.
#![tactic(auto)]

mod source; // source.rt: the text of the table

ghost use Rattle.std.specs.Prelude.{IfSome, OnOk, take};
ghost use Rattle.std.specs.Io.KnownBytes.{Appends};
ghost use Rattle.rolesource.specs.Source.{source};

use crate::source::{Text, source};
use input::read_full;
use rolelist::listed::LIST_BYTES;
use std::io;
use std::io::{Input, Read, Write};

// Room for the longest list, and for one byte more, which shows that the input is longer.
const INPUT_BYTES: usize = LIST_BYTES + 1;

// What the input lists, as far as there is room for it, is printed as a table on the output.
fn role_source<R: Read, W: Write>(input: &mut R, output: &mut W) -> io::Result<()>
    ensures { OnOk result (IfSome (R.remaining input.old) (λ bytes. Appends (W.contents output.old) (W.contents output.new) (source (take 32769 bytes)))) }
{
    let mut bytes = [0; INPUT_BYTES];
    let n = read_full(input, &mut bytes)?;
    let mut text = Text::new();
    source(&bytes[..n], &mut text);
    output.write_all(text.as_slice())
}

fn main(rt: HostRuntime) -> io::Result<()> {
    role_source(&mut rt.reader(), &mut io::writer(&rt))
}
