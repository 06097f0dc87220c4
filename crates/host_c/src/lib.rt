// The host's entry for C, as include/virdzeba.h has it: crate `host`'s function under its own name, with its clauses.
#![tactic(auto)]

ghost use Rattle.std.specs.Prelude.{◌≡◌, length};
ghost use Rattle.host.specs.Host.{returned, written};

// The rounds for done, 100 more for short, 200 plus the number for a refusal, 300 for anything unread or past the bounds. Done and
// short write the new picture at the head of `res`; nothing else is written.
#[unsafe(no_mangle)]
pub extern "C" fn virdzeba_sink(
    picture: &[u8],
    res: &mut [u8],
    registers: u32,
    operands: u32,
) -> u32
    ensures value { result ≡ returned picture.now (length res.old) registers operands }
    ensures res_after { res.new ≡ written picture.now res.old registers operands }
{
    host::virdzeba_sink(picture, res, registers, operands)
}
