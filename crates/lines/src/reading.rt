// The next line that ends in the part, read.
ghost use Rattle.memory.specs.Lent.{read_only};
ghost use Rattle.std.specs.Prelude.{◌≤◌, length};
ghost use Rattle.lines.specs.Feeding.{MayRun};
ghost use Rattle.lines.specs.Lent.{ReadsWhole, ReadsNext};

use crate::Read;
use crate::keeping::{line_feed, read_line};
use parse_deliver::{deliver_line, quick_deliver};
use progress::{KeptLine, MAX_LINES, Progress, has_room};

// A line of any kind: its line feed is looked for first.
fn any_line(line: &mut KeptLine, input: &[u8], progress: Progress) -> Option<Read>
    requires { progress.taken ≤ length input.now }
    ensures { ReadsWhole line (read_only input) progress result }
{
    let from = progress.taken;
    let feed = line_feed(input, from);
    if feed < input.len() {
        let present = read_line(line, &input[from..feed], progress.held);
        Some(Read {
            line: present,
            next: feed + 1,
        })
    } else {
        None
    }
}

// Most lines are `deliver` with a number and lie whole in the part: these are tried first, in one pass.
fn whole_line(line: &mut KeptLine, input: &[u8], progress: Progress) -> Option<Read>
    requires { progress.taken ≤ length input.now }
    ensures { ReadsWhole line (read_only input) progress result }
{
    if progress.held == 0 {
        if let Some(quick) = quick_deliver(input, progress.taken) {
            return Some(Read {
                line: deliver_line(quick.number),
                next: quick.next,
            });
        }
    }
    any_line(line, input, progress)
}

// Whether one more line may be run: nothing after line 4,294,967,295 is read, and there must be room for what a line prints.
fn may_run(size: usize, progress: Progress) -> bool
    ensures { MayRun size progress result }
{
    progress.lines < MAX_LINES && has_room(size, progress.written)
}

// The next line, if it may be run.
pub fn next_line(line: &mut KeptLine, input: &[u8], size: usize, progress: Progress) -> Option<Read>
    requires { progress.taken ≤ length input.now }
    ensures { ReadsNext line (read_only input) size progress result }
{
    if may_run(size, progress) {
        whole_line(line, input, progress)
    } else {
        None
    }
}
