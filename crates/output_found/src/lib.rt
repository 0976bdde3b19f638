// An answer's line, with its data from the lent bytes of what its call found.
#![tactic(auto)]

ghost use Rattle.std.specs.Prelude.{◌≤◌, ◌+◌, length};
ghost use Rattle.model.specs.Print.{answer_text};
ghost use Rattle.memory.specs.Lent.{was, is};
ghost use Rattle.memory_found.specs.Found.{found_in};
ghost use Rattle.print.specs.Printed.{Printed};
ghost use Rattle.print.specs.Room.{answer_room};
ghost use Rattle.output_found.specs.Answers.{answer_of};

use crate::found_data::put_data;
use memory_found::FoundBytes;
use print::ResultWord;
use print::answer_text::put_head;
use print::bytes::put_bytes;

mod found_data;

// The call's number, its result's word, its rounds and its data.
fn put_line(
    out: &mut [u8],
    at: usize,
    call: u32,
    word: ResultWord,
    rounds: u32,
    found: &FoundBytes,
) -> usize
    requires { at + length (answer_text (answer_of call word rounds (found_in found.now))) ≤ length out.old }
    ensures { Printed (answer_text (answer_of call word rounds (found_in found.now))) (was out) at (is out) result }
{
    let after_head = put_head(out, at, call, word, rounds);
    let after_data = put_data(out, after_head, word, found);
    put_bytes(out, after_data, b"\n")
}

// The same, within the room of an answer, whatever was found.
pub fn put_found_answer(
    out: &mut [u8],
    at: usize,
    call: u32,
    word: ResultWord,
    rounds: u32,
    found: &FoundBytes,
) -> usize
    requires { at + answer_room ≤ length out.old }
    ensures { Printed (answer_text (answer_of call word rounds (found_in found.now))) (was out) at (is out) result × (result ≤ at + answer_room) }
{
    put_line(out, at, call, word, rounds, found)
}
