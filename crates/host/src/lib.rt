// The host's entry (01, "One listing whole": "The simulator's Rust host calls one entry over numbers and bytes"). specs/Host says
// what it returns and writes. Crate `host_c` exports it for C.
#![tactic(auto)]

pub mod run; // run.rt: the call on a picture in bytes

ghost use Rattle.std.specs.Prelude.{◌≡◌, ◌≤◌, length};
ghost use Rattle.host.specs.Host.{returned, written};

use crate::run::sink_bytes;

// The number for anything unread or past the bounds.
const UNREAD: u32 = 300;

// The rounds for done, 100 more for short, 200 plus the number for a refusal, 300 for anything unread or past the bounds. Done and
// short write the new picture at the head of `res`; nothing else is written.
pub fn virdzeba_sink(picture: &[u8], res: &mut [u8], registers: u32, operands: u32) -> u32
    ensures value { result ≡ returned picture.now (length res.old) registers operands }
    ensures res_after { res.new ≡ written picture.now res.old registers operands }
{
    let Some(ran) = sink_bytes(picture, res, registers as usize, operands as usize) else {
        return UNREAD;
    };
    ran.answer.number()
}
