// The bench: a script from standard input, what it prints to standard output. What is done with the bytes is crate `feed`; here they
// are read and written, in blocks of 65,536. Where reading or writing fails it stops there, and prints no tally.
#![tactic(auto)]

ghost use Rattle.std.specs.Prelude.{◌<◌, ◌≤◌, ◌≡◌};
ghost use Rattle.tally.specs.Sums.{tally_sum};

use feed::FedPart;
use feed::entry::{feed_value, finish_value};
use memory::{
    ANSWERS_LEN, Arrays, CONTENTS_LEN, COUNTS_LEN, HEADS_LEN, PAYLOADS_LEN, QUEUE_LEN, SLOTS_LEN,
    TEXTS_LEN,
};
use progress::{BYTES_WRITTEN, KEPT_LEN, KeptLine, READER_LEN, ReaderWords};
use runs::Tally;
use std::io::{Read, Write};
use tally::sum;

// The bytes of a block.
const BLOCK: usize = 65536;

// Where the run stands: the tally, where the block ends and how many of its bytes are left, how many turns may follow (none where it
// stops), and whether the input is at its end.
#[derive(Clone, Copy)]
struct Place {
    tally: Tally,
    end: usize,
    left: usize,
    turns: u64,
    ended: bool,
}

// No turn follows: neither a part nor the end.
fn stop(tally: Tally) -> Place
    ensures { result.turns ≡ 0 }
{
    Place {
        tally,
        end: 0,
        left: 0,
        turns: 0,
        ended: false,
    }
}

// The next block is read: the input is at its end where there is nothing to read.
fn read_block<R: Read>(reading: &mut R, input: &mut [u8], tally: Tally, turns: u64) -> Place
    ensures { result.turns ≤ turns }
{
    match reading.read(input) {
        Ok(end) => Place {
            tally,
            end,
            left: end,
            turns,
            ended: end == 0,
        },
        Err(_) => stop(tally),
    }
}

// A proved loop has to end, and nothing says that the input does: the turns are counted down, from a number that no run uses up.
fn start<R: Read>(reading: &mut R, input: &mut [u8]) -> Place {
    let tally = Tally {
        sent: 0,
        copied: 0,
        delivered: 0,
        lost: 0,
        flight: 0,
    };
    read_block(reading, input, tally, u64::MAX)
}

// What is left of the block.
fn rest(input: &[u8], end: usize, left: usize) -> &[u8] {
    let to = end.min(input.len());
    let from = to - left.min(to);
    &input[from..to]
}

// The first bytes of the output, so many as are named, are written out: false where that fails, as where nobody reads them any more.
fn write_out<W: Write>(writing: &mut W, out: &[u8], count: usize) -> bool {
    let written = count.min(out.len());
    writing.write_all(&out[..written]).is_ok()
}

// The tally with what a part adds to it.
fn tally_with(run: Place, fed: FedPart) -> Tally
    ensures { result ≡ tally_sum run.tally fed.change }
{
    let tally = run.tally;
    let change = fed.change;
    sum(tally, change)
}

// After a part: what it printed is written out, then the rest of the block is next, or another block.
fn next_part<R: Read, W: Write>(
    reading: &mut R,
    writing: &mut W,
    run: Place,
    fed: FedPart,
    input: &mut [u8],
    out: &[u8],
    reader: &ReaderWords,
) -> Place
    requires { 0 < run.turns }
    ensures { result.turns < run.turns }
{
    let tally = tally_with(run, fed);
    let is_written = write_out(writing, out, reader[BYTES_WRITTEN]);
    if !is_written {
        return stop(tally);
    }
    if run.left <= fed.taken {
        return read_block(reading, input, tally, run.turns - 1);
    }
    Place {
        tally,
        end: run.end,
        left: run.left - fed.taken,
        turns: run.turns - 1,
        ended: false,
    }
}

// A turn: what is left of the block is fed, as far as the output has room (it takes a byte: `takes_some` in crate `feed`); or at the
// end of the input the last line and the tally are printed.
fn turn<R: Read, W: Write>(
    reading: &mut R,
    writing: &mut W,
    arrays: &mut Arrays<'_>,
    reader: &mut ReaderWords,
    line: &mut KeptLine,
    run: Place,
    input: &mut [u8; BLOCK],
    out: &mut [u8; BLOCK],
) -> Place
    requires { 0 < run.turns }
    ensures { result.turns < run.turns }
{
    if run.ended {
        let end = finish_value(arrays, reader, line, run.tally, out);
        write_out(writing, out, end.written);
        return stop(run.tally);
    }
    let part = rest(input, run.end, run.left);
    let fed = feed_value(arrays, reader, line, run.tally, part, out);
    next_part(reading, writing, run, fed, input, out, reader)
}

fn main(rt: HostRuntime) {
    let mut reading = rt.stdin();
    let mut writing = rt.stdout();
    let mut arrays = Arrays {
        counts: &mut [0; COUNTS_LEN],
        heads: &mut [0; HEADS_LEN],
        slots: &mut [0; SLOTS_LEN],
        copies: &mut [0; CONTENTS_LEN],
        working: &mut [0; CONTENTS_LEN],
        texts: &mut [0; TEXTS_LEN],
        queue: &mut [0; QUEUE_LEN],
        payloads: &mut [0; PAYLOADS_LEN],
        answers: &mut [0; ANSWERS_LEN],
    };
    let mut reader = [0usize; READER_LEN];
    let mut line = [0u8; KEPT_LEN];
    let mut input = [0u8; BLOCK];
    let mut out = [0u8; BLOCK];
    let mut run = start(&mut reading, &mut input);
    while run.turns > 0 {
        run = turn(
            &mut reading,
            &mut writing,
            &mut arrays,
            &mut reader,
            &mut line,
            run,
            &mut input,
            &mut out,
        );
    }
}
