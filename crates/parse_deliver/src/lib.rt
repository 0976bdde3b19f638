// A line `deliver I` and its line feed, read in one pass where they lie in the input: most lines of a script are such. Every other line
// is left to `parse`.
#![tactic(auto)]

ghost use Rattle.std.specs.Prelude.{◌≡◌, ◌++◌, ◌≤◌, ◌<◌, ◌==◌, length, position, IfSome, IsTrue, ◌↔◌};
ghost use Rattle.std.proofs.Math.Option.{some};
ghost use Rattle.model.specs.Lines.{deliver};
ghost use Rattle.model.specs.Text.{bytes};
ghost use Rattle.parse.specs.Meaning.{parsed};
ghost use Rattle.parse_deliver.specs.Deliver.{MayFollow, NumberRead, DeliverRead};

use entries::{Key, Value};
use parse::{Kind, Line};
use progress::LINE_FEED;

// The bytes of `deliver` and a space.
const WORD_LEN: usize = 8;

// The most digits of a number (RULES, Lines 3).
const MOST_DIGITS: usize = 9;

// A number, and how many digits it has.
#[derive(Clone, Copy)]
struct Figures {
    number: u32,
    count: usize,
}

// The number of a line `deliver I`, and the place behind its line feed.
#[derive(Clone, Copy)]
pub struct Quick {
    pub number: u32,
    pub next: usize,
}

// What follows `deliver` and a space.
fn after_word(input: &[u8]) -> Option<&[u8]>
    ensures { IfSome result (λ rest. input.now ≡ bytes "deliver " ++ rest.now) }
{
    input.strip_prefix(b"deliver ")
}

// The place of the first line feed.
pub fn line_feed(input: &[u8]) -> Option<usize>
    ensures is { result ≡ position (λ byte. byte == 10) input.now }
    ensures within { IfSome result (λ i. i < length input.now) }
{
    input.iter().position(|byte| *byte == LINE_FEED)
}

// Whether one more digit may stand behind `count` digits of this number: nine are the most, and none follows a leading zero.
fn may_follow(number: u32, count: usize) -> bool
    ensures { IsTrue result ↔ MayFollow number count }
{
    count == 0 || (number != 0 && count < MOST_DIGITS)
}

// The number that these bytes begin with, if a line feed stands behind it: no byte after that is looked at, nor one after the tenth.
fn number_and_feed(bytes: &[u8]) -> Option<Figures>
    ensures { IfSome result (λ figures. NumberRead bytes.now figures) }
{
    let mut number: u32 = 0;
    for (count, byte) in bytes.iter().enumerate() {
        match *byte {
            b'0'..=b'9' if may_follow(number, count) => {
                number = number * 10 + u32::from(*byte - b'0');
            }
            LINE_FEED if 0 < count => return Some(Figures { number, count }),
            _ => return None,
        }
    }
    None
}

// The line that begins at `from`, if it is `deliver` with a number.
pub fn quick_deliver(input: &[u8], from: usize) -> Option<Quick>
    requires { from ≤ length input.now }
    ensures { IfSome result (λ quick. DeliverRead input.now from quick) }
{
    let rest = after_word(&input[from..])?;
    let figures = number_and_feed(rest)?;
    Some(Quick {
        number: figures.number,
        next: from + WORD_LEN + figures.count + 1,
    })
}

// That line as the general reader gives it.
pub fn deliver_line(number: u32) -> Line
    ensures { result ≡ parsed (some (deliver number)) }
{
    Line {
        key: Key::empty(),
        expected: Value::empty(),
        value: Value::empty(),
        first: number,
        second: 0,
        kind: Kind::Deliver,
        has_expected: false,
        has_value: false,
    }
}
