// Runs the cases of standard input through the proved crates. A line is the name of a call, two words for what it takes, one
// for the bytes that are lent to it, and the name of the case. What is printed is the name of the case, the number that
// the call answers, and the lent bytes afterwards; `?` for a line of any other form.
#![tactic(auto)]

ghost use Rattle.std.specs.Prelude.{◌≤◌, IfOk, length};

mod calls;
mod datagrams;
mod showing;
mod words;

use std::io;
use std::io::{Read, Write};
use words::{ROOM, bytes, word};

// The most bytes of input that are read.
const INPUT: usize = 65536;

// Input past the first 65,536 bytes is not read.
fn main(rt: HostRuntime) -> io::Result<()> {
    let mut input = [0u8; INPUT];
    let len = read_full(&mut rt.stdin(), &mut input)?;
    cases(&mut rt.stdout(), &input[..len])
}

// Reads until `input` is full or there is no more, and answers how many bytes were read. The library's `read_to_end` wants a
// heap, and its `read_exact` a full buffer.
fn read_full<R: Read>(reading: &mut R, input: &mut [u8]) -> io::Result<usize>
    ensures { IfOk result (λ len. len ≤ length input.new) }
{
    let mut len = 0;
    while len < input.len() {
        let count = reading.read(&mut input[len..])?;
        if count == 0 {
            return Ok(len);
        }
        len += count;
    }
    Ok(len)
}

// The room for the bytes of a line's words is made once, since zeros in it would take most of the time of a line.
fn cases<W: Write>(to: &mut W, input: &[u8]) -> io::Result<()> {
    let mut first = [0u8; ROOM];
    let mut second = [0u8; ROOM];
    let mut out = [0u8; ROOM];
    for line in input.split_inclusive(|byte| *byte == b'\n') {
        let line = line.strip_suffix(b"\n").unwrap_or(line);
        case(to, line, &mut first, &mut second, &mut out)?;
    }
    Ok(())
}

fn case<W: Write>(
    to: &mut W,
    line: &[u8],
    first: &mut [u8],
    second: &mut [u8],
    out: &mut [u8],
) -> io::Result<()> {
    let Some(first_len) = bytes(word(line, 1), first) else {
        return showing::unknown(to);
    };
    let Some(second_len) = bytes(word(line, 2), second) else {
        return showing::unknown(to);
    };
    let Some(out_len) = bytes(word(line, 3), out) else {
        return showing::unknown(to);
    };
    calls::run(
        to,
        line,
        &first[..first_len],
        &second[..second_len],
        &mut out[..out_len],
    )
}
