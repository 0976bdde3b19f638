// The public calls: a part of the input, and its end, on lent arrays. They are given the tally by value, and answer what is to be added
// to it.
ghost use Rattle.memory.specs.Lent.{was, read_only};
ghost use Rattle.views.specs.Lent.{lent, SameArrays};
ghost use Rattle.feed.specs.Lent.{FeedsValue, FinishesValue};

use crate::{FedEnd, FedPart};
use lines::feeding::feed_part;
use memory::Arrays;
use output::put_end;
use print::{LINE_ROOM, TALLY_ROOM};
use progress::{BYTES_KEPT, KeptLine, LINES_READ, ReaderWords, last_feed, put_reader};
use runs::Tally;
use tally::change;

// Bytes of output for what a line and the tally print.
const FINISH_ROOM: usize = LINE_ROOM + TALLY_ROOM;

// A part of the input.
pub fn feed_value(
    arrays: &mut Arrays<'_>,
    reader: &mut ReaderWords,
    line: &mut KeptLine,
    tally: Tally,
    input: &[u8],
    out: &mut [u8],
) -> FedPart
    ensures same { SameArrays arrays }
    ensures feeds { FeedsValue (lent arrays) reader line tally (read_only input) out result }
{
    let lines = reader[LINES_READ];
    let count = reader[BYTES_KEPT];
    let progress = feed_part(arrays, line, out, input, tally, lines, count);
    put_reader(reader, progress, progress.written);
    FedPart {
        change: change(tally, progress.tally),
        taken: progress.taken,
    }
}

// The end of the input: a line feed ends a last line that lacks it, then the tally follows. It answers how many bytes it wrote; where
// the output has no room it writes and adds nothing, and answers 0.
pub fn finish_value(
    arrays: &mut Arrays<'_>,
    reader: &mut ReaderWords,
    line: &mut KeptLine,
    tally: Tally,
    out: &mut [u8],
) -> FedEnd
    ensures same { SameArrays arrays }
    ensures finishes { FinishesValue (lent arrays) reader line tally out result }
{
    if out.len() < FINISH_ROOM {
        return FedEnd {
            change: change(tally, tally),
            written: 0,
        };
    }
    let lines = reader[LINES_READ];
    let count = reader[BYTES_KEPT];
    let feed = last_feed(count);
    let progress = feed_part(
        arrays,
        line,
        &mut out[..LINE_ROOM],
        feed,
        tally,
        lines,
        count,
    );
    let written = put_end(out, progress.written, progress.tally);
    put_reader(reader, progress, written);
    FedEnd {
        change: change(tally, progress.tally),
        written,
    }
}
