// What is printed (RULES, Output), written into a lent buffer. A printer is given the output and a place in it, and answers where its text
// ends; a struct of the two would say no more, since each contract speaks of the output before and after.
#![tactic(auto)]

use entries::{Key, TABLE_ROOM, Value};

pub mod answer_text;
pub mod bytes;
mod decimals;
pub mod hexadecimals;
pub mod other_lines;

// Bytes of output for what a line prints, and for the tally.
pub const LINE_ROOM: usize = 1024;

pub const TALLY_ROOM: usize = 64;

// The most figures of a number.
pub const FIGURES: usize = 10;

// The figures of a number: the bytes from `from` on. There is no heap, and the last figure comes first.
#[derive(Clone, Copy)]
pub struct Figures {
    pub bytes: [u8; FIGURES],
    pub from: usize,
}

// The word for the result of a call: `Value` for a value that is there, `Absent` where the key is absent.
#[derive(Clone, Copy)]
pub enum ResultWord {
    Value,
    Keys,
    Done,
    Mismatch,
    Full,
    NotDone,
    Unknown,
    Absent,
}

// Keys: the first `count` of four.
#[derive(Clone, Copy)]
pub struct KeyList {
    pub count: usize,
    pub keys: [Key; TABLE_ROOM],
}

// An answer as it is printed: the call's number, the word for its result, the number of rounds made for it, and the data of
// `value` and `keys`.
#[derive(Clone, Copy)]
pub struct AnswerLine {
    pub call: u32,
    pub word: ResultWord,
    pub rounds: u32,
    pub value: Value,
    pub keys: KeyList,
}
