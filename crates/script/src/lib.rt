// The public calls for callers in other languages, who lend arrays of these sizes, no two of them overlapping, and the tally: a part of a
// script, and its end. What a call counts is added to the lent tally. The arrays are lent one by one: this is the C interface that crate
// `script_c` exports.
#![tactic(auto)]

ghost use Rattle.memory.specs.Lent.{read_only};
ghost use Rattle.views.specs.Lent.{lent, lent_each, SameArrays};
ghost use Rattle.feed.specs.Lent.{FeedsScript, FinishesScript};
ghost use Rattle.script.specs.Each.{FeedsEach};

use feed::entry::{feed_value, finish_value};
use memory::{
    AnswerWords, Arrays, CopyBytes, CountWords, HeadWords, PayloadBytes, QueueWords, SlotWords,
    TextBytes, WorkingBytes,
};
use progress::{KeptLine, ReaderWords};
use runs::Tally;
use tally::add;

// A part of the input: how many bytes of it were taken. Bytes are left only from a line feed on, where the output has no room for what
// a line can print (1,024 bytes); the bytes written are counted in `reader[2]`.
pub fn script_feed(
    counts: &mut CountWords,
    heads: &mut HeadWords,
    slots: &mut SlotWords,
    copies: &mut CopyBytes,
    working: &mut WorkingBytes,
    texts: &mut TextBytes,
    queue: &mut QueueWords,
    payloads: &mut PayloadBytes,
    answers: &mut AnswerWords,
    reader: &mut ReaderWords,
    line: &mut KeptLine,
    tally: &mut Tally,
    input: &[u8],
    out: &mut [u8],
) -> usize
    ensures { FeedsScript (lent_each counts heads slots copies working texts queue payloads answers) reader line tally (read_only input) out result }
{
    feed_each(
        counts, heads, slots, copies, working, texts, queue, payloads, answers, reader, line,
        tally, input, out,
    )
}

// The same, with what it leaves said array by array.
fn feed_each(
    counts: &mut CountWords,
    heads: &mut HeadWords,
    slots: &mut SlotWords,
    copies: &mut CopyBytes,
    working: &mut WorkingBytes,
    texts: &mut TextBytes,
    queue: &mut QueueWords,
    payloads: &mut PayloadBytes,
    answers: &mut AnswerWords,
    reader: &mut ReaderWords,
    line: &mut KeptLine,
    tally: &mut Tally,
    input: &[u8],
    out: &mut [u8],
) -> usize
    ensures { FeedsEach (lent_each counts heads slots copies working texts queue payloads answers) reader line tally (read_only input) out result }
{
    let mut arrays = Arrays {
        counts,
        heads,
        slots,
        copies,
        working,
        texts,
        queue,
        payloads,
        answers,
    };
    feed_lent(&mut arrays, reader, line, tally, input, out)
}

// The same, on the arrays together.
fn feed_lent(
    arrays: &mut Arrays<'_>,
    reader: &mut ReaderWords,
    line: &mut KeptLine,
    tally: &mut Tally,
    input: &[u8],
    out: &mut [u8],
) -> usize
    ensures same { SameArrays arrays }
    ensures feeds { FeedsEach (lent arrays) reader line tally (read_only input) out result }
{
    let fed = feed_value(arrays, reader, line, *tally, input, out);
    let change = fed.change;
    add(tally, change);
    fed.taken
}

// The end of the input: a last line without line feed, then the tally. It answers how many bytes it wrote, or 0 and does nothing
// where the output has no room for them (1,088 bytes).
pub fn script_finish(
    counts: &mut CountWords,
    heads: &mut HeadWords,
    slots: &mut SlotWords,
    copies: &mut CopyBytes,
    working: &mut WorkingBytes,
    texts: &mut TextBytes,
    queue: &mut QueueWords,
    payloads: &mut PayloadBytes,
    answers: &mut AnswerWords,
    reader: &mut ReaderWords,
    line: &mut KeptLine,
    tally: &mut Tally,
    out: &mut [u8],
) -> usize
    ensures { FinishesScript (lent_each counts heads slots copies working texts queue payloads answers) reader line tally out result }
{
    let mut arrays = Arrays {
        counts,
        heads,
        slots,
        copies,
        working,
        texts,
        queue,
        payloads,
        answers,
    };
    let fed = finish_value(&mut arrays, reader, line, *tally, out);
    let change = fed.change;
    add(tally, change);
    fed.written
}
