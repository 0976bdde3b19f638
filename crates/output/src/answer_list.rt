// The answers of a line, from the words that the machine left.
ghost use Rattle.std.specs.Prelude.{◌≡◌, ◌≤◌, ◌<◌, ◌+◌, length};
ghost use Rattle.entries.specs.Decoded.{table_in, value_bytes};
ghost use Rattle.model.specs.Measures.{most_answers};
ghost use Rattle.model.specs.Print.{answer_text, answer_texts};
ghost use Rattle.server.specs.Views.{answer_in};
ghost use Rattle.memory.specs.Lent.{was, is};
ghost use Rattle.views.specs.Changes.{answer_at, answers_at};
ghost use Rattle.print.specs.Printed.{Printed};
ghost use Rattle.print.specs.Room.{answer_room, line_room};
ghost use Rattle.output.specs.Told.{Told, ResultWordOf, KeyOf, KeysOf, answer_fields};

use entries::{Decoded, Key, Slot, Value};
use memory::offsets::{ANSWER_CALL, ANSWER_RESULT, ANSWER_ROUNDS};
use memory::{ANSWER_SIZE, AnswerWords};
use print::answer_text::put_answer;
use print::{AnswerLine, KeyList, ResultWord};
use server::Answer;
use server::codes::{ABSENT, DONE, FULL, LISTED, MISMATCH, NOTDONE, VALUE};

// The word of a result; any other number stands for `unknown`, as in the definition.
fn result_word(res: u32) -> ResultWord
    ensures { ResultWordOf res result }
{
    match res {
        VALUE => ResultWord::Value,
        LISTED => ResultWord::Keys,
        DONE => ResultWord::Done,
        MISMATCH => ResultWord::Mismatch,
        FULL => ResultWord::Full,
        NOTDONE => ResultWord::NotDone,
        ABSENT => ResultWord::Absent,
        _ => ResultWord::Unknown,
    }
}

// The key of a slot; its contract says that it is short, which bounds what is printed.
fn key_of(entry: Slot) -> Key
    ensures { KeyOf entry result }
{
    entry.key
}

// The keys of a table.
fn key_list(table: Decoded) -> KeyList
    ensures { KeysOf table result }
{
    let slots = table.slots;
    KeyList {
        count: table.count,
        keys: [
            key_of(slots[0]),
            key_of(slots[1]),
            key_of(slots[2]),
            key_of(slots[3]),
        ],
    }
}

// Answer i.
fn load_answer(answers: &AnswerWords, place: usize) -> Answer
    requires { place < most_answers }
    ensures { result ≡ answer_at answers.now place }
{
    answer_fields(answers, place)
}

// The same, with the fields written out in the contract.
fn answer_fields(answers: &AnswerWords, place: usize) -> Answer
    requires { place < most_answers }
    ensures { result ≡ answer_fields answers.now place }
{
    let base = place * ANSWER_SIZE;
    Answer {
        call: answers[base + ANSWER_CALL],
        result: answers[base + ANSWER_RESULT],
        rounds: answers[base + ANSWER_ROUNDS],
    }
}

// An answer with the data of `value` and `keys`.
fn put_one(out: &mut [u8], at: usize, answer: Answer, value: Value, table: Decoded) -> usize
    requires { at + answer_room ≤ length out.old }
    ensures { Printed (answer_text (answer_in answer (value_bytes value) (table_in table))) (was out) at (is out) result × (result ≤ at + answer_room) }
{
    let printed = AnswerLine {
        call: answer.call,
        word: result_word(answer.result),
        rounds: answer.rounds,
        value,
        keys: key_list(table),
    };
    put_answer(out, at, printed)
}

// The first answers, so many as the line has.
pub fn put_answers(
    out: &mut [u8],
    at: usize,
    count: usize,
    answers: &AnswerWords,
    value: Value,
    table: Decoded,
) -> usize
    requires { (at + line_room ≤ length out.old) × (count ≤ most_answers) }
    ensures { Told (answer_texts (answers_at count answers.now (value_bytes value) (table_in table))) (was out) at (is out) result }
{
    let mut next = at;
    for i in 0..count {
        let answer = load_answer(answers, i);
        next = put_one(out, next, answer, value, table);
    }
    next
}
