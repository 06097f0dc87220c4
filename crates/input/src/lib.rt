// Input that is read in whole parts.
#![tactic(auto)]

ghost use Rattle.std.specs.Prelude.{◌≡◌, ◌+◌, ◌<◌, ◌≤◌, drop, length, take, IfOk};
ghost use Rattle.std.specs.Io.KnownBytes.{Consumes, IsAtEnd};

use std::io;
use std::io::Read;

// One read into `out` behind its first `at` bytes, which stay; returns how many bytes came, none only where the input is at its end.
fn read_at<R: Read>(input: &mut R, out: &mut [u8], at: usize) -> io::Result<usize>
    requires { at < length out.old }
    ensures front { take at out.new ≡ take at out.old }
    ensures fits { IfOk result (λ n. at + n ≤ length out.new) }
    ensures bytes { IfOk result (λ n. Consumes (R.remaining input.old) (R.remaining input.new) (take n (drop at out.new))) }
    ensures end { IfOk result (λ n. n ≡ 0 → IsAtEnd (R.remaining input.new)) }
{
    input.read(&mut out[at..])
}

// Reads until `out` is full or the input ends, and returns how many bytes came; they stand at the head of `out`. (By hand: std's
// `read_exact` does not say how many came, and its `read_to_end` takes a `Vec`.)
pub fn read_full<R: Read>(input: &mut R, out: &mut [u8]) -> io::Result<usize>
    ensures count { IfOk result (λ n. n ≤ length out.new) }
    ensures bytes { IfOk result (λ n. Consumes (R.remaining input.old) (R.remaining input.new) (take n out.new)) }
    ensures end { IfOk result (λ n. n < length out.new → IsAtEnd (R.remaining input.new)) }
{
    let mut done = 0;
    while done < out.len() {
        let n = read_at(input, out, done)?;
        if n == 0 {
            return Ok(done);
        }
        done += n;
    }
    Ok(done)
}
