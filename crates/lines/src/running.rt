// One line at its end: run on the cluster's arrays, and told in the output.
ghost use Rattle.std.specs.Prelude.{◌≤◌, ◌<◌, ◌+◌, length};
ghost use Rattle.model.specs.Measures.{max_lines};
ghost use Rattle.print.specs.Room.{line_room};
ghost use Rattle.views.specs.Lent.{lent, SameArrays};
ghost use Rattle.lines.specs.Lent.{EndsLine};

use machine::entry::step;
use memory::Arrays;
use output::put_outcome;
use parse::Line;
use progress::{Ending, Progress};

// A line that was read is run and told.
pub fn end_line(arrays: &mut Arrays<'_>, out: &mut [u8], line: Line, progress: Progress) -> Ending
    requires { (progress.lines < max_lines) × (progress.written + line_room ≤ length out.old) }
    ensures same { SameArrays arrays }
    ensures ends { EndsLine (lent arrays) out line progress result }
{
    let stepped = step(arrays, progress.tally, line);
    let number = (progress.lines + 1) as u32;
    let written = put_outcome(
        out,
        progress.written,
        number,
        stepped.report,
        arrays.answers,
    );
    Ending {
        tally: stepped.tally,
        written,
    }
}
