// Keys and values in hexadecimal: whether a word is one, and the bytes that it stands for.
ghost use Rattle.std.specs.Prelude.{◌≡◌, ◌<◌, ◌+◌, ◌*◌, ◌&&◌, true, length, get_or, map, is_some};
ghost use Rattle.std.specs.List.{fold, range_with_len};
ghost use Rattle.model.specs.Parse.{hex_digit, pairs, hexadecimal, item};
ghost use Rattle.parse.specs.Digits.{optional, optional_by, present, pair_bytes, item_bytes, Nibble};
ghost use Rattle.parse.specs.Kept.{text_for, key_for, item_for};

use crate::digits::hex_digit;
use crate::words::same_word;
use entries::{Key, Text, Value};

// Whether the bytes of a word are digits. It doesn't stop at one that is none: so the compiler can test many at once.
fn all_digits(word: &[u8]) -> bool
    ensures { result ≡ fold (λ all byte. all && is_some (optional (hex_digit byte))) true word.now }
{
    word.iter()
        .fold(true, |all, byte| all & hex_digit(*byte).is_some())
}

// Whether a word is made of pairs of digits.
#[tactic(auto, using(crate::proofs::Pairs::pairs_present))]
fn is_pairs(word: &[u8]) -> bool
    ensures { result ≡ present (pairs word.now) }
{
    word.len() % 2 == 0 && all_digits(word)
}

// Whether a word is a key: pairs, or `-` for one of no bytes, which is refused later.
#[tactic(auto, using(crate::proofs::Pairs::key_present))]
fn is_key(word: &[u8]) -> bool
    ensures { result ≡ present (hexadecimal word.now) }
{
    !word.is_empty() && (same_word(word, b"-") || is_pairs(word))
}

// Whether a word is a value: pairs, `-` for an absent one or `.` for one of no bytes.
#[tactic(auto, using(crate::proofs::Pairs::item_present))]
fn is_item(word: &[u8]) -> bool
    ensures { result ≡ present (item word.now) }
{
    !word.is_empty() && (same_word(word, b"-") || same_word(word, b".") || is_pairs(word))
}

// The digit that a byte is, 0 for others.
fn nibble(byte: u8) -> u8
    ensures { Nibble byte result }
{
    hex_digit(byte).unwrap_or(0)
}

// The byte that pair i stands for.
fn pair_at(word: &[u8], i: usize) -> u8
    requires { 2 * i + 1 < length word.now }
    ensures { result ≡ get_or (pair_bytes word.now) i 0 }
{
    nibble(word[2 * i]) * 16 + nibble(word[2 * i + 1])
}

// The bytes that pairs stand for, as many as there is room for, with zeros behind them.
fn bytes_in<const ROOM: usize>(word: &[u8]) -> [u8; ROOM]
    ensures { result ≡ map (λ i. get_or (pair_bytes word.now) i 0) (range_with_len 0 ROOM) }
{
    let mut bytes = [0; ROOM];
    for i in 0..ROOM.min(word.len() / 2) {
        bytes[i] = pair_at(word, i);
    }
    bytes
}

// The key or value that pairs stand for: its first bytes, and the number of all.
fn text_in<const ROOM: usize>(word: &[u8]) -> Text<ROOM>
    ensures { result ≡ text_for (pair_bytes word.now) }
{
    Text {
        bytes: bytes_in(word),
        len: word.len() / 2,
    }
}

// The value that a word stands for, none for `-`; `.` has no pairs, so it stands for no bytes.
fn item_in(word: &[u8]) -> Option<Value>
    ensures { result ≡ item_for (item_bytes word.now) }
{
    if same_word(word, b"-") {
        None
    } else {
        Some(text_in(word))
    }
}

// The key that a word is.
pub fn key(word: &[u8]) -> Option<Key>
    ensures { result ≡ optional_by key_for (hexadecimal word.now) }
{
    if is_key(word) {
        Some(text_in(word))
    } else {
        None
    }
}

// The value that a word is. Always inlined, so that it isn't handed back through memory.
#[inline(always)]
pub fn item(word: &[u8]) -> Option<Option<Value>>
    ensures { result ≡ optional_by item_for (item word.now) }
{
    if is_item(word) {
        Some(item_in(word))
    } else {
        None
    }
}
