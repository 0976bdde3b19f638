// How far a part of the input was dealt with, by value, and what is kept of it between two parts, in three lent words.
#![tactic(auto)]

ghost use Rattle.std.specs.Prelude.{◌≡◌, ◌+◌, ◌<◌, leb, set};
ghost use Rattle.model.specs.Measures.{max_lines};
ghost use Rattle.print.specs.Room.{line_room};
ghost use Rattle.progress.specs.Progress.{begun_at, waiting_at, ended_at, passed_at, last_feed};

use parse::MAX_LINE;
use print::LINE_ROOM;
use runs::Tally;

// What ends a line.
pub const LINE_FEED: u8 = 10;

// How many lines are read: their numbers are below 2^32.
pub const MAX_LINES: usize = 4294967295;

// What is kept between two parts: how many lines were read, how many bytes of the present line are kept, how many bytes the last call
// wrote.
pub const READER_LEN: usize = 3;

pub const LINES_READ: usize = 0;

pub const BYTES_KEPT: usize = 1;

pub const BYTES_WRITTEN: usize = 2;

// An array, as `script_c` exports it to callers in other languages.
pub type ReaderWords = [usize; READER_LEN];

// Bytes kept of a line: one more than a line may have, so that a longer one is known.
pub const KEPT_LEN: usize = MAX_LINE + 1;

pub type KeptLine = [u8; KEPT_LEN];

// The tally after a line, and where its text ends in the output.
#[derive(Clone, Copy)]
pub struct Ending {
    pub tally: Tally,
    pub written: usize,
}

// The tally, the lines read, the bytes held of the present line, the bytes taken of the part, and the bytes written.
#[derive(Clone, Copy)]
pub struct Progress {
    pub tally: Tally,
    pub lines: usize,
    pub held: usize,
    pub taken: usize,
    pub written: usize,
}

impl Progress {
    // Nothing taken or written yet.
    pub fn begun(tally: Tally, lines: usize, held: usize) -> Self
        ensures { result ≡ begun_at tally lines held }
    {
        Progress {
            tally,
            lines,
            held,
            taken: 0,
            written: 0,
        }
    }

    // The present line is not at its end, or has no room for what it prints: its bytes are kept.
    pub fn waiting(self, held: usize, taken: usize) -> Self
        ensures { result ≡ waiting_at self held taken }
    {
        Progress {
            held,
            taken,
            ..self
        }
    }

    // The present line was run; the byte after its line feed is at `next`.
    pub fn ended(self, ending: Ending, next: usize) -> Self
        requires { self.lines < max_lines }
        ensures { result ≡ ended_at self ending next }
    {
        Progress {
            tally: ending.tally,
            lines: self.lines + 1,
            held: 0,
            taken: next,
            written: ending.written,
        }
    }

    // Past the last line that is read: all bytes of the part are taken.
    pub fn passed(self, size: usize) -> Self
        ensures { result ≡ passed_at self size }
    {
        Progress {
            taken: size,
            ..self
        }
    }
}

// Whether an output of this size has room for what a line can print.
pub fn has_room(size: usize, written: usize) -> bool
    ensures { result ≡ leb (written + line_room) size }
{
    LINE_ROOM <= size.saturating_sub(written)
}

// The line feed that ends a line of `count` bytes at the end of the input: none where the line is empty.
#[tactic(auto, using(crate::proofs::Feeds::feeds_none, crate::proofs::Feeds::feeds_one))]
pub fn last_feed(count: usize) -> &'static [u8]
    ensures { result.now ≡ last_feed count }
{
    if count == 0 { b"" } else { b"\n" }
}

// What is kept between two parts, and how many bytes were written.
pub fn put_reader(reader: &mut ReaderWords, progress: Progress, written: usize)
    ensures { reader.new ≡ set (set (set reader.old 0 progress.lines) 1 progress.held) 2 written }
{
    reader[LINES_READ] = progress.lines;
    reader[BYTES_KEPT] = progress.held;
    reader[BYTES_WRITTEN] = written;
}
