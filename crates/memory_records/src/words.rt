// The words of open calls: their numbers in the slots, their keys and values in the last region of the bytes, a block for each slot.
ghost use Rattle.std.specs.Prelude.{◌≡◌, ◌+◌, ◌*◌, ◌<◌, ◌≤◌};
ghost use Rattle.std.proofs.Math.Seq.{paste};
ghost use Rattle.memory.specs.Rows.{row, put_row};
ghost use Rattle.memory.specs.Layout.{slot_room, slot_size, text_size, value_room, numbers_place, numbers_words, numbers_row, numbers_of, numbers_at, numbers_in, item_word, text_from, item_from, stored_value, words_at, put_texts};
ghost use Rattle.memory.specs.Lent.{was, is, read_only};
ghost use Rattle.memory_regions.specs.Regions.{slots_place, old_regions};
ghost use Rattle.memory_regions.specs.Contents.{old_contents, new_contents, with_texts};
ghost use Rattle.memory_records.specs.Stored.{StoresWords};

use entries::{Text, Value};
use memory::offsets::{
    EXPECTED_NUMBER, EXPECTED_TEXT, KEY_NUMBER, KEY_TEXT, VALUE_NUMBER, VALUE_TEXT, WORDS_BUCKET,
    WORDS_KIND,
};
use memory::{Numbers, SLOT_SIZE, TEXT_SIZE};
use memory_regions::{Bytes, SLOTS_AT, TEXTS_AT};
use server::Words;

// The words of the call of this slot.
pub fn load_words(words: &memory_regions::Words, bytes: &Bytes, slot: usize) -> Words
    requires { slot < slot_room }
    ensures { result ≡ words_at (old_regions (read_only words)).slots (old_contents (read_only bytes)).texts slot }
{
    let numbers = load_numbers(words, slot);
    let base = slot * TEXT_SIZE;
    let key = text_from(bytes, base + KEY_TEXT, numbers.key as usize);
    let expected = item_from(bytes, base + EXPECTED_TEXT, numbers.expected as usize);
    let value = item_from(bytes, base + VALUE_TEXT, numbers.value as usize);
    Words {
        kind: numbers.kind,
        bucket: numbers.bucket,
        key,
        expected,
        value,
    }
}

fn load_numbers(words: &memory_regions::Words, slot: usize) -> Numbers
    requires { slot < slot_room }
    ensures { result ≡ numbers_at (old_regions (read_only words)).slots slot }
{
    numbers_fields(words, slot)
}

fn numbers_fields(words: &memory_regions::Words, slot: usize) -> Numbers
    requires { slot < slot_room }
    ensures { result ≡ numbers_of (row (slots_place + slot * slot_size) numbers_place numbers_words words.now) }
{
    let base = SLOTS_AT + slot * SLOT_SIZE;
    Numbers {
        kind: words[base + WORDS_KIND],
        bucket: words[base + WORDS_BUCKET],
        key: words[base + KEY_NUMBER],
        expected: words[base + EXPECTED_NUMBER],
        value: words[base + VALUE_NUMBER],
    }
}

// A key or a value whose ROOM bytes begin at this place of the region; `len` of them count.
fn text_from<const ROOM: usize>(bytes: &Bytes, at: usize, len: usize) -> Text<ROOM>
    requires { at + ROOM ≤ slot_room * text_size }
    ensures { result ≡ text_from ROOM (old_contents (read_only bytes)).texts at len }
{
    let from = TEXTS_AT + at;
    let mut read = [0; ROOM];
    read.copy_from_slice(&bytes[from..from + ROOM]);
    Text { bytes: read, len }
}

// A value by its word: none for 0, else of a length one below it.
#[tactic(auto, using(memory::proofs::Texts::item_there))]
fn item_from(bytes: &Bytes, at: usize, word: usize) -> Option<Value>
    requires { at + value_room ≤ slot_room * text_size }
    ensures { result ≡ item_from (old_contents (read_only bytes)).texts at word }
{
    if word == 0 {
        return None;
    }
    Some(text_from(bytes, at, word - 1))
}

// The call of this slot gets these words.
pub fn store_words(words: &mut memory_regions::Words, bytes: &mut Bytes, slot: usize, call: Words)
    requires { slot < slot_room }
    ensures { StoresWords words bytes slot call }
{
    let numbers = numbers_in(call);
    numbers_stores(words, slot, numbers);
    store_texts(bytes, slot, call);
}

// The word of a value: 0 where there is none, else one above its length.
#[tactic(auto, unfolding(memory::specs::Layout::item_word))]
fn item_word(item: Option<Value>) -> u32
    ensures { result ≡ item_word item }
{
    match item {
        Some(value) => value.length() as u32 + 1,
        None => 0,
    }
}

// The numbers of words: a length above the room is stored as all of it.
fn numbers_in(call: Words) -> Numbers
    ensures { result ≡ numbers_in call }
{
    Numbers {
        kind: call.kind,
        bucket: call.bucket,
        key: call.key.length() as u32,
        expected: item_word(call.expected),
        value: item_word(call.value),
    }
}

fn numbers_stores(words: &mut memory_regions::Words, slot: usize, numbers: Numbers)
    requires { slot < slot_room }
    ensures { is words ≡ put_row (was words) (slots_place + slot * slot_size) numbers_place (numbers_row numbers) }
{
    let base = SLOTS_AT + slot * SLOT_SIZE;
    words[base + WORDS_KIND] = numbers.kind;
    words[base + WORDS_BUCKET] = numbers.bucket;
    words[base + KEY_NUMBER] = numbers.key;
    words[base + EXPECTED_NUMBER] = numbers.expected;
    words[base + VALUE_NUMBER] = numbers.value;
}

// The bytes of the key and of both values; those of an absent value are zeros.
#[tactic(auto, unfolding(memory::specs::Layout::put_texts))]
fn store_texts(bytes: &mut Bytes, slot: usize, call: Words)
    requires { slot < slot_room }
    ensures { new_contents bytes ≡ with_texts (old_contents bytes) (put_texts (old_contents bytes).texts slot call) }
{
    let base = slot * TEXT_SIZE;
    put_text(bytes, base + KEY_TEXT, &call.key);
    put_text(bytes, base + EXPECTED_TEXT, &stored_value(call.expected));
    put_text(bytes, base + VALUE_TEXT, &stored_value(call.value));
}

// The value whose bytes are stored.
fn stored_value(item: Option<Value>) -> Value
    ensures { result ≡ stored_value item }
{
    item.unwrap_or(Text::empty())
}

// The bytes of a key, or of a value, are stored from this place of the region on.
fn put_text<const ROOM: usize>(bytes: &mut Bytes, at: usize, text: &Text<ROOM>)
    requires { at + ROOM ≤ slot_room * text_size }
    ensures { new_contents bytes ≡ with_texts (old_contents bytes) (paste (old_contents bytes).texts at text.now.bytes ROOM) }
{
    let from = TEXTS_AT + at;
    bytes[from..from + ROOM].copy_from_slice(&text.bytes);
}
