// A part of the input: lines are run where they end, as long as the output has room; the bytes after them are kept.
ghost use Rattle.std.specs.Prelude.{◌≤◌, length};
ghost use Rattle.views.specs.Lent.{lent, SameArrays};
ghost use Rattle.memory.specs.Lent.{was, is, read_only};
ghost use Rattle.lines.specs.Feeding.{RestKept};
ghost use Rattle.lines.specs.Lent.{Advances, FeedsPart};

use crate::keeping::{keep, line_feed};
use crate::reading::next_line;
use crate::running::end_line;
use memory::Arrays;
use progress::{KeptLine, MAX_LINES, Progress};
use runs::Tally;

// The next line that ends in the part is run, if there is one and room for what it prints; else nothing is done.
fn advance(
    arrays: &mut Arrays<'_>,
    line: &mut KeptLine,
    out: &mut [u8],
    input: &[u8],
    progress: Progress,
) -> Option<Progress>
    requires { (progress.taken ≤ length input.now) × (progress.written ≤ length out.old) }
    ensures same { SameArrays arrays }
    ensures advances { Advances (lent arrays) line out (read_only input) progress result }
{
    let read = next_line(line, input, out.len(), progress)?;
    let ending = end_line(arrays, out, read.line, progress);
    Some(progress.ended(ending, read.next))
}

// The bytes after the last line that was run are kept, up to a line feed.
fn keep_rest(line: &mut KeptLine, input: &[u8], progress: Progress) -> Progress
    requires { progress.taken ≤ length input.now }
    ensures { RestKept progress (was line) input.now result (is line) }
{
    if progress.lines < MAX_LINES {
        let from = progress.taken;
        let feed = line_feed(input, from);
        let held = keep(line, &input[from..feed], progress.held);
        progress.waiting(held, feed)
    } else {
        progress.passed(input.len())
    }
}

// A part of the input.
pub fn feed_part(
    arrays: &mut Arrays<'_>,
    line: &mut KeptLine,
    out: &mut [u8],
    input: &[u8],
    tally: Tally,
    lines: usize,
    count: usize,
) -> Progress
    ensures same { SameArrays arrays }
    ensures feeds { FeedsPart (lent arrays) line out (read_only input) tally lines count result }
{
    let mut progress = Progress::begun(tally, lines, count);
    while let Some(after) = advance(arrays, line, out, input, progress) {
        progress = after;
    }
    keep_rest(line, input, progress)
}
