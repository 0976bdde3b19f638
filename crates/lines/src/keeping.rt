// The bytes of the present line.
ghost use Rattle.std.specs.Prelude.{◌≡◌, ◌≤◌, length};
ghost use Rattle.memory.specs.Lent.{was, is, read_only};
ghost use Rattle.lines.specs.Sessions.{held, put_all, present_line};
ghost use Rattle.lines.specs.Lines.{FeedAt};
ghost use Rattle.lines.specs.Lent.{ReadsLine};

use parse::{Line, parse_line};
use progress::{KEPT_LEN, KeptLine};

// Bytes of the present line, behind those that are kept already, as many as there is room for.
pub fn keep(line: &mut KeptLine, bytes: &[u8], count: usize) -> usize
    ensures { held (is line) result ≡ put_all (held (was line) count) bytes.now }
{
    if KEPT_LEN <= count {
        return count;
    }
    let kept = bytes.len().min(KEPT_LEN - count);
    let end = count + kept;
    line[count..end].copy_from_slice(&bytes[..kept]);
    end
}

// The bytes that are kept; a count above the room counts as all of it.
fn kept_bytes(line: &[u8], count: usize) -> &[u8]
    ensures { result.now ≡ present_line (held line.now count) }
{
    &line[..count.min(line.len())]
}

// The present line, read; these are its last bytes. Where nothing of it is kept they are all of it, and it is read where it lies.
#[tactic(auto, unfolding(crate::specs::Sessions::ended_line, crate::specs::Sessions::held_after))]
pub fn read_line(line: &mut KeptLine, bytes: &[u8], count: usize) -> Line
    ensures { ReadsLine line (read_only bytes) count result }
{
    if count == 0 {
        return parse_line(bytes);
    }
    let kept = keep(line, bytes, count);
    parse_line(kept_bytes(line, kept))
}

// The place of the next line feed, or the end of the input.
pub fn line_feed(input: &[u8], from: usize) -> usize
    requires { from ≤ length input.now }
    ensures { FeedAt input.now from result }
{
    match parse_deliver::line_feed(&input[from..]) {
        Some(i) => from + i,
        None => input.len(),
    }
}
