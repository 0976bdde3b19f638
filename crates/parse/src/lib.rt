// Script lines from their bytes (RULES, Lines 2 to 7).
#![tactic(auto)]

ghost use Rattle.std.specs.Prelude.{◌≡◌};
ghost use Rattle.std.proofs.Math.Option.{none};
ghost use Rattle.model.specs.Parse.{parse};
ghost use Rattle.parse.specs.Meaning.{parsed};

use crate::shapes::{of_numbers, with_word};
use crate::words::first_space;
use entries::{Key, Value};

pub mod digits;
mod hexadecimals;
mod shapes;
pub mod words;

// The first word of a line, or that the line is malformed (RULES, Lines 2).
#[derive(Clone, Copy)]
pub enum Kind {
    Malformed,
    Cluster,
    Elect,
    Get,
    Set,
    SetIf,
    Del,
    Keys,
    Deliver,
    Copy,
    Lose,
    Timeout,
    Stop,
    Cut,
    Start,
}

// A line that was read. `first` is its server, index or number of servers, `second` its bucket, its number of buckets or
// of stores. A key or value has its whole length, which may be above its room, and as many of its bytes as there is room
// for, with zeros behind them; what a line does not have is zeros. Whether the expected value and the value are there
// stands last, as two flags: with an Option or a flag in each value the whole program was slower (docs/DECISIONS.md, "Fields by size").
#[derive(Clone, Copy)]
pub struct Line {
    pub key: Key,
    pub expected: Value,
    pub value: Value,
    pub first: u32,
    pub second: u32,
    pub kind: Kind,
    pub has_expected: bool,
    pub has_value: bool,
}

// The most bytes of a line (RULES, Lines 2).
pub const MAX_LINE: usize = 120;

// A line that is malformed (RULES, Lines 2).
#[tactic(auto, unfolding(crate::specs::Meaning::parsed))]
fn malformed() -> Line
    ensures { result ≡ parsed none }
{
    of_numbers(Kind::Malformed, 0, 0)
}

// The line of these bytes, which end before its line feed.
pub fn parse_line(line: &[u8]) -> Line
    ensures { result ≡ parsed (parse line.now) }
{
    if MAX_LINE < line.len() {
        return malformed();
    }
    let Some(end) = first_space(line) else {
        return malformed();
    };
    if let Some(read) = with_word(&line[..end], &line[end + 1..]) {
        return read;
    }
    malformed()
}
