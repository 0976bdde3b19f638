// Lines by the number of their words, and by the first of them: none where a line is malformed. Each is returned where it is found: as the
// value of an `if` or a `match` it was copied once more, by each function that hands it up.
ghost use Rattle.std.specs.Prelude.{◌≡◌, ◌∷◌};
ghost use Rattle.model.specs.Text.{bytes};
ghost use Rattle.model.specs.Parse.{number, hexadecimal, item, words, line_of1, line_of2, line_of3, line_of4, line_of};
ghost use Rattle.parse.specs.Digits.{optional_by};
ghost use Rattle.parse.specs.Meaning.{two_numbers_line, line_of_parts, line_with_numbers, parsed_line, number_for, numbers_for, call_for};

use crate::digits::number;
use crate::hexadecimals::{item, key};
use crate::words::{first_space, same_word};
use crate::{Kind, Line};
use entries::{Key, Value};

// A line by its parts. Always inlined: as a call of its own it had the values copied once more.
#[inline(always)]
fn of_words(
    kind: Kind,
    first: u32,
    second: u32,
    key: Key,
    expected: Option<Value>,
    value: Option<Value>,
) -> Line
    ensures { result ≡ line_of_parts kind first second key expected value }
{
    Line {
        kind,
        first,
        second,
        key,
        expected: expected.unwrap_or(Value::empty()),
        value: value.unwrap_or(Value::empty()),
        has_expected: expected.is_some(),
        has_value: value.is_some(),
    }
}

pub fn of_numbers(kind: Kind, first: u32, second: u32) -> Line
    ensures { result ≡ line_with_numbers kind first second }
{
    of_words(kind, first, second, Key::empty(), None, None)
}

// A line with one number.
fn number_line(kind: Kind, word: &[u8]) -> Option<Line>
    ensures { result ≡ number_for kind (number word.now) }
{
    Some(of_numbers(kind, number(word)?, 0))
}

// A line with two numbers.
fn numbers_line(kind: Kind, first: &[u8], second: &[u8]) -> Option<Line>
    ensures { result ≡ numbers_for kind (number first.now) (number second.now) }
{
    Some(of_numbers(kind, number(first)?, number(second)?))
}

// A call with a key; where the kind has no expected value or no value, that word is `-`.
fn call_line(
    kind: Kind,
    server: &[u8],
    key_word: &[u8],
    expected: &[u8],
    value: &[u8],
) -> Option<Line>
    ensures { result ≡ call_for kind (number server.now) (hexadecimal key_word.now) (item expected.now) (item value.now) }
{
    Some(of_words(
        kind,
        number(server)?,
        0,
        key(key_word)?,
        item(expected)?,
        item(value)?,
    ))
}

fn line_of_1(word: &[u8], first: &[u8]) -> Option<Line>
    ensures { result ≡ optional_by parsed_line (line_of1 word.now first.now) }
{
    if same_word(word, b"elect") {
        return number_line(Kind::Elect, first);
    }
    if same_word(word, b"deliver") {
        return number_line(Kind::Deliver, first);
    }
    if same_word(word, b"copy") {
        return number_line(Kind::Copy, first);
    }
    if same_word(word, b"lose") {
        return number_line(Kind::Lose, first);
    }
    if same_word(word, b"stop") {
        return number_line(Kind::Stop, first);
    }
    if same_word(word, b"start") {
        return number_line(Kind::Start, first);
    }
    None
}

// A call with a key and no values.
fn key_line(kind: Kind, server: &[u8], key: &[u8]) -> Option<Line>
    ensures { result ≡ call_for kind (number server.now) (hexadecimal key.now) (item (bytes "-")) (item (bytes "-")) }
{
    call_line(kind, server, key, b"-", b"-")
}

// A line of two numbers behind its first word: a server and a bucket, or a message and how many stores.
fn two_numbers_line(word: &[u8], first: &[u8], second: &[u8]) -> Option<Line>
    ensures { result ≡ optional_by parsed_line (two_numbers_line word.now first.now second.now) }
{
    if same_word(word, b"keys") {
        return numbers_line(Kind::Keys, first, second);
    }
    if same_word(word, b"timeout") {
        return numbers_line(Kind::Timeout, first, second);
    }
    if same_word(word, b"cut") {
        return numbers_line(Kind::Cut, first, second);
    }
    None
}

fn line_of_2(word: &[u8], first: &[u8], second: &[u8]) -> Option<Line>
    ensures { result ≡ optional_by parsed_line (line_of2 word.now first.now second.now) }
{
    if same_word(word, b"cluster") {
        return numbers_line(Kind::Cluster, first, second);
    }
    if same_word(word, b"get") {
        return key_line(Kind::Get, first, second);
    }
    if same_word(word, b"del") {
        return key_line(Kind::Del, first, second);
    }
    two_numbers_line(word, first, second)
}

fn line_of_3(word: &[u8], first: &[u8], second: &[u8], third: &[u8]) -> Option<Line>
    ensures { result ≡ optional_by parsed_line (line_of3 word.now first.now second.now third.now) }
{
    if same_word(word, b"set") {
        return call_line(Kind::Set, first, second, b"-", third);
    }
    None
}

fn line_of_4(word: &[u8], first: &[u8], second: &[u8], third: &[u8], fourth: &[u8]) -> Option<Line>
    ensures { result ≡ optional_by parsed_line (line_of4 word.now first.now second.now third.now fourth.now) }
{
    if same_word(word, b"setif") {
        return call_line(Kind::SetIf, first, second, third, fourth);
    }
    None
}

// The words before `rest` are read, and `rest` holds one more, or several.
fn with_four(word: &[u8], first: &[u8], second: &[u8], third: &[u8], rest: &[u8]) -> Option<Line>
    ensures { result ≡ optional_by parsed_line (line_of (word.now ∷ (first.now ∷ (second.now ∷ (third.now ∷ (words rest.now)))))) }
{
    let Some(_) = first_space(rest) else {
        return line_of_4(word, first, second, third, rest);
    };
    None
}

// The words before `rest` are read, and `rest` holds one more, or several.
fn with_three(word: &[u8], first: &[u8], second: &[u8], rest: &[u8]) -> Option<Line>
    ensures { result ≡ optional_by parsed_line (line_of (word.now ∷ (first.now ∷ (second.now ∷ (words rest.now))))) }
{
    let Some(end) = first_space(rest) else {
        return line_of_3(word, first, second, rest);
    };
    with_four(word, first, second, &rest[..end], &rest[end + 1..])
}

// The words before `rest` are read, and `rest` holds one more, or several.
fn with_two(word: &[u8], first: &[u8], rest: &[u8]) -> Option<Line>
    ensures { result ≡ optional_by parsed_line (line_of (word.now ∷ (first.now ∷ (words rest.now)))) }
{
    let Some(end) = first_space(rest) else {
        return line_of_2(word, first, rest);
    };
    with_three(word, first, &rest[..end], &rest[end + 1..])
}

// The words before `rest` are read, and `rest` holds one more, or several.
pub fn with_word(word: &[u8], rest: &[u8]) -> Option<Line>
    ensures { result ≡ optional_by parsed_line (line_of (word.now ∷ (words rest.now))) }
{
    let Some(end) = first_space(rest) else {
        return line_of_1(word, rest);
    };
    with_two(word, &rest[..end], &rest[end + 1..])
}
