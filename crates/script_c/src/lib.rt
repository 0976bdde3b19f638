// The calls of crate `script`, exported for programs in other languages, who lend arrays of these sizes, no two of them overlapping. The
// arrays are lent one by one: this is the C interface.
#![tactic(auto)]

ghost use Rattle.memory.specs.Lent.{read_only};
ghost use Rattle.views.specs.Lent.{lent_each};
ghost use Rattle.feed.specs.Lent.{FeedsScript, FinishesScript};

use memory::{
    AnswerWords, CopyBytes, CountWords, HeadWords, PayloadBytes, QueueWords, SlotWords, TextBytes,
    WorkingBytes,
};
use progress::{KeptLine, ReaderWords};
use runs::Tally;

// A part of the input: how many bytes of it were taken. Bytes are left only from a line feed on, where the output has no room for what
// a line can print (1,024 bytes); the bytes written are counted in `reader[2]`.
#[unsafe(no_mangle)]
pub extern "C" fn script_feed(
    counts: &mut CountWords,
    heads: &mut HeadWords,
    slots: &mut SlotWords,
    copies: &mut CopyBytes,
    working: &mut WorkingBytes,
    texts: &mut TextBytes,
    queue: &mut QueueWords,
    payloads: &mut PayloadBytes,
    answers: &mut AnswerWords,
    reader: &mut ReaderWords,
    line: &mut KeptLine,
    tally: &mut Tally,
    input: &[u8],
    out: &mut [u8],
) -> usize
    ensures { FeedsScript (lent_each counts heads slots copies working texts queue payloads answers) reader line tally (read_only input) out result }
{
    script::script_feed(
        counts, heads, slots, copies, working, texts, queue, payloads, answers, reader, line,
        tally, input, out,
    )
}

// The end of the input: a last line without line feed, then the tally. It answers how many bytes it wrote, or 0 and does nothing
// where the output has no room for them (1,088 bytes).
#[unsafe(no_mangle)]
pub extern "C" fn script_finish(
    counts: &mut CountWords,
    heads: &mut HeadWords,
    slots: &mut SlotWords,
    copies: &mut CopyBytes,
    working: &mut WorkingBytes,
    texts: &mut TextBytes,
    queue: &mut QueueWords,
    payloads: &mut PayloadBytes,
    answers: &mut AnswerWords,
    reader: &mut ReaderWords,
    line: &mut KeptLine,
    tally: &mut Tally,
    out: &mut [u8],
) -> usize
    ensures { FinishesScript (lent_each counts heads slots copies working texts queue payloads answers) reader line tally out result }
{
    script::script_finish(
        counts, heads, slots, copies, working, texts, queue, payloads, answers, reader, line,
        tally, out,
    )
}
