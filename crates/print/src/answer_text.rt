// Answers: the call's number, its result, its rounds, and the data.
ghost use Rattle.std.specs.Prelude.{◌≡◌, ◌++◌, ◌≤◌, ◌+◌, length, map};
ghost use Rattle.entries.specs.Decoded.{key_bytes};
ghost use Rattle.model.specs.Text.{bytes};
ghost use Rattle.model.specs.Print.{decimal, key_list, keys_text, data_of, answer_text};
ghost use Rattle.print.specs.Printed.{Printed};
ghost use Rattle.print.specs.Answers.{keys_in, answer_in, word_for};

use crate::bytes::put_bytes;
use crate::decimals::put_decimal;
use crate::hexadecimals::{put_key, put_value};
use crate::{AnswerLine, KeyList, ResultWord};
use entries::{Key, TABLE_ROOM};

impl KeyList {
    // The keys that count: all four where their number says more.
    fn used(&self) -> &[Key]
        ensures keys { map key_bytes result.now ≡ keys_in self.now }
        ensures low { length result.now ≤ 4 }
    {
        &self.keys[..self.count.min(TABLE_ROOM)]
    }
}

impl ResultWord {
    // The word as it is printed, between spaces.
    #[tactic(auto, unfolding(crate::specs::Answers::word_for, crate::specs::Answers::result_for, model::specs::Print::word_of, model::specs::Text::bytes))]
    fn spaced(self) -> &'static [u8]
        ensures { result.now ≡ bytes " " ++ (word_for self ++ bytes " ") }
    {
        match self {
            ResultWord::Value | ResultWord::Absent => b" value ",
            ResultWord::Keys => b" keys ",
            ResultWord::Done => b" done ",
            ResultWord::Mismatch => b" mismatch ",
            ResultWord::Full => b" full ",
            ResultWord::NotDone => b" notdone ",
            ResultWord::Unknown => b" unknown ",
        }
    }
}

// Keys, each after a space.
fn put_each_key(out: &mut [u8], at: usize, keys: &[Key]) -> usize
    requires { at + length (key_list (map key_bytes keys.now)) ≤ length out.old }
    ensures { Printed (key_list (map key_bytes keys.now)) out.old at out.new result }
{
    let mut end = at;
    for key in keys {
        end = put_key(out, end, *key);
    }
    end
}

// The same, with `-` for none.
fn put_keys(out: &mut [u8], at: usize, keys: &[Key]) -> usize
    requires { at + length (keys_text (map key_bytes keys.now)) ≤ length out.old }
    ensures { Printed (keys_text (map key_bytes keys.now)) out.old at out.new result }
{
    if keys.is_empty() {
        put_bytes(out, at, b" -")
    } else {
        put_each_key(out, at, keys)
    }
}

// The data of `value` and `keys`.
fn put_data(out: &mut [u8], at: usize, answer: AnswerLine) -> usize
    requires { at + length (data_of (answer_in answer).result) ≤ length out.old }
    ensures { Printed (data_of (answer_in answer).result) out.old at out.new result }
{
    match answer.word {
        ResultWord::Value => put_value(out, at, answer.value),
        ResultWord::Keys => put_keys(out, at, answer.keys.used()),
        ResultWord::Absent => put_bytes(out, at, b" -"),
        _ => at,
    }
}

// The call's number, its result's word and its rounds.
pub fn put_head(out: &mut [u8], at: usize, call: u32, word: ResultWord, rounds: u32) -> usize
    requires { at + length (decimal call ++ ((bytes " " ++ (word_for word ++ bytes " ")) ++ decimal rounds)) ≤ length out.old }
    ensures { Printed (decimal call ++ ((bytes " " ++ (word_for word ++ bytes " ")) ++ decimal rounds)) out.old at out.new result }
{
    let after_call = put_decimal(out, at, call);
    let after_word = put_bytes(out, after_call, word.spaced());
    put_decimal(out, after_word, rounds)
}

// An answer's line.
pub fn put_answer(out: &mut [u8], at: usize, answer: AnswerLine) -> usize
    requires { at + length (answer_text (answer_in answer)) ≤ length out.old }
    ensures { Printed (answer_text (answer_in answer)) out.old at out.new result }
{
    let after_head = put_head(out, at, answer.call, answer.word, answer.rounds);
    let after_data = put_data(out, after_head, answer);
    put_bytes(out, after_data, b"\n")
}
