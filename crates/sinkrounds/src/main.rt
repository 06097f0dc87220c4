// `sinkrounds` (01, "One listing whole"): a picture on standard input, its rounds on standard output.
#![tactic(auto)]

ghost use Rattle.std.specs.Prelude.{IfSome, OnOk, take};
ghost use Rattle.std.specs.Io.KnownBytes.{Appends};
ghost use Rattle.report.specs.Report.{report_of};

use input::read_full;
use layout::PICTURE_BYTES;
use report::report;
use std::io;
use std::io::{Input, Read, Write};

// Room for the largest picture, and for one byte more, which shows that the input is longer.
const INPUT_BYTES: usize = PICTURE_BYTES + 1;

// What the input has, as far as there is room for it, is told of on the output.
fn sink_rounds<R: Read, W: Write>(input: &mut R, output: &mut W) -> io::Result<()>
    ensures { OnOk result (IfSome (R.remaining input.old) (λ bytes. Appends (W.contents output.old) (W.contents output.new) (report_of (take 53025 bytes)))) }
{
    let mut bytes = [0; INPUT_BYTES];
    let n = read_full(input, &mut bytes)?;
    output.write_all(report(&bytes[..n]).as_str().as_bytes())
}

fn main(rt: HostRuntime) -> io::Result<()> {
    sink_rounds(&mut rt.reader(), &mut io::writer(&rt))
}
