// The data of an answer: a value or keys, from what its call found.
ghost use Rattle.std.specs.Prelude.{◌++◌, ◌≤◌, ◌+◌, length};
ghost use Rattle.std.proofs.Math.Option.{some};
ghost use Rattle.model.specs.Text.{bytes};
ghost use Rattle.model.specs.Print.{hex_pairs, value_text, key_list, keys_text, data_of};
ghost use Rattle.memory.specs.Lent.{was, is};
ghost use Rattle.memory_found.specs.Found.{found_in};
ghost use Rattle.print.specs.Printed.{Printed};
ghost use Rattle.output_found.specs.Answers.{item_of, result_of};

use memory_found::FoundBytes;
use memory_found::reading::{found_at, found_count};
use print::ResultWord;
use print::bytes::put_bytes;
use print::hexadecimals::{put_pairs, put_there};

// The first item as a value, after a space.
fn put_value(out: &mut [u8], at: usize, found: &FoundBytes) -> usize
    requires { at + length (bytes " " ++ value_text (some (item_of (found_in found.now) 0))) ≤ length out.old }
    ensures { Printed (bytes " " ++ value_text (some (item_of (found_in found.now) 0))) (was out) at (is out) result }
{
    let next = put_bytes(out, at, b" ");
    put_there(out, next, found_at(found, 0))
}

// Item i as a key, after a space.
fn put_key(out: &mut [u8], at: usize, found: &FoundBytes, i: usize) -> usize
    requires { at + length (bytes " " ++ hex_pairs (item_of (found_in found.now) i)) ≤ length out.old }
    ensures { Printed (bytes " " ++ hex_pairs (item_of (found_in found.now) i)) (was out) at (is out) result }
{
    let next = put_bytes(out, at, b" ");
    put_pairs(out, next, found_at(found, i))
}

// All items, as keys.
fn put_each_key(out: &mut [u8], at: usize, found: &FoundBytes) -> usize
    requires { at + length (key_list (found_in found.now)) ≤ length out.old }
    ensures { Printed (key_list (found_in found.now)) (was out) at (is out) result }
{
    let mut end = at;
    for i in 0..found_count(found) {
        end = put_key(out, end, found, i);
    }
    end
}

// The same, with `-` for none.
fn put_keys(out: &mut [u8], at: usize, found: &FoundBytes) -> usize
    requires { at + length (keys_text (found_in found.now)) ≤ length out.old }
    ensures { Printed (keys_text (found_in found.now)) (was out) at (is out) result }
{
    if found_count(found) == 0 {
        put_bytes(out, at, b" -")
    } else {
        put_each_key(out, at, found)
    }
}

// The data that the word of a result asks for.
pub fn put_data(out: &mut [u8], at: usize, word: ResultWord, found: &FoundBytes) -> usize
    requires { at + length (data_of (result_of word (found_in found.now))) ≤ length out.old }
    ensures { Printed (data_of (result_of word (found_in found.now))) (was out) at (is out) result }
{
    match word {
        ResultWord::Value => put_value(out, at, found),
        ResultWord::Keys => put_keys(out, at, found),
        ResultWord::Absent => put_bytes(out, at, b" -"),
        _ => at,
    }
}
