// One line with the tally, by value: what it leaves, and what that stands for.
ghost use Rattle.views.specs.Lent.{lent, SameArrays};
ghost use Rattle.machine.specs.Lent.{Performs, SizedArrays};

use crate::Stepped;
use crate::one_line::run_line;
use memory::Arrays;
use parse::Line;
use runs::{Tally, tally_after};

// The lengths of the arrays, for the caller's proof: it does nothing.
fn sizes(arrays: &Arrays<'_>)
    ensures { SizedArrays arrays.now }
{
    let _counts: &[u32] = arrays.counts;
    let _heads: &[u32] = arrays.heads;
    let _slots: &[u32] = arrays.slots;
    let _copies: &[u8] = arrays.copies;
    let _working: &[u8] = arrays.working;
    let _texts: &[u8] = arrays.texts;
    let _queue: &[u32] = arrays.queue;
    let _payloads: &[u8] = arrays.payloads;
    let _answers: &[u32] = arrays.answers;
}

// One line of a script.
pub fn step(arrays: &mut Arrays<'_>, tally: Tally, line: Line) -> Stepped
    ensures same { SameArrays arrays }
    ensures performs { Performs (lent arrays) tally line result }
{
    sizes(arrays);
    let report = run_line(arrays, line);
    let after = tally_after(tally, report);
    Stepped {
        report,
        tally: after,
    }
}
