// Replays a stored list of pictures with the Rust's answers through the host's entry (tests/rust/README.md says how the list was
// made), and prints how many came out as stored. Standard input, case by case: five words (bytes of the picture, registers lent,
// operands lent, the number to be returned, bytes to be written), the picture, the bytes; a word 0 ends the list.
#![tactic(auto)]

use host::virdzeba_sink;
use input::read_full;
use layout::PICTURE_BYTES;
use std::io;
use std::io::{Input, Read};
use words::bytes::word_at;

// The most cases that are replayed.
const CASES: u32 = 4096;

// What the result holds before a case.
const FILL: u8 = 165;

// A case's five words.
#[derive(Clone, Copy)]
struct Head {
    picture_bytes: usize,
    registers: u32,
    operands: u32,
    number: u32,
    result_bytes: usize,
}

// The words of the next case; none where the list is at its end.
fn next(input: &mut impl Read) -> io::Result<Option<Head>> {
    let mut head = [0; 20];
    if read_full(input, &mut head)? < 4 || word_at(&head, 0) == 0 {
        return Ok(None);
    }
    Ok(Some(Head {
        picture_bytes: word_at(&head, 0) as usize,
        registers: word_at(&head, 4),
        operands: word_at(&head, 8),
        number: word_at(&head, 12),
        result_bytes: word_at(&head, 16) as usize,
    }))
}

// The next n bytes of the input, read into `out`; none where there are fewer, or more than fit.
fn get<'a>(input: &mut impl Read, out: &'a mut [u8], n: usize) -> io::Result<Option<&'a [u8]>> {
    if n <= out.len() && read_full(input, &mut out[..n])? == n {
        return Ok(Some(&out[..n]));
    }
    Ok(None)
}

// Whether the result is what is stored, and behind it as it was.
fn is_stored(res: &[u8], stored: &[u8]) -> bool {
    res.strip_prefix(stored)
        .is_some_and(|rest| rest.iter().all(|b| *b == FILL))
}

// Whether the case comes out as stored, and is not cut short.
fn replay(input: &mut impl Read, head: Head) -> io::Result<bool> {
    let mut picture = [0; PICTURE_BYTES];
    let Some(picture) = get(input, &mut picture, head.picture_bytes)? else {
        return Ok(false);
    };
    let mut stored = [0; PICTURE_BYTES];
    let Some(stored) = get(input, &mut stored, head.result_bytes)? else {
        return Ok(false);
    };
    let mut result = [FILL; PICTURE_BYTES];
    let number = virdzeba_sink(picture, &mut result, head.registers, head.operands);
    Ok(number == head.number && is_stored(&result, stored))
}

fn main(rt: HostRuntime) -> io::Result<()> {
    let mut input = rt.reader();
    let mut right = 0u32;
    let mut wrong = 0u32;
    for case in 0..CASES {
        let Some(head) = next(&mut input)? else {
            break;
        };
        if replay(&mut input, head)? {
            right += 1;
        } else {
            wrong += 1;
        }
    }
    println!(rt; "{right} as stored")?;
    println!(rt; "{wrong} otherwise")
}
