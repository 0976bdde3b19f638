// The words of open calls: their numbers in the slots, their keys and values in lent bytes, a block for each slot.
ghost use Rattle.std.specs.Prelude.{◌≡◌, ◌+◌, ◌*◌, ◌<◌, ◌≤◌};
ghost use Rattle.std.proofs.Math.Seq.{paste};
ghost use Rattle.memory.specs.Layout.{slot_room, text_size, value_room, numbers_fields, numbers_stores, numbers_in, item_word, text_from, item_from, stored_value, words_at, put_words, put_texts};
ghost use Rattle.memory.specs.Lent.{was, is};

use entries::{Text, Value};
use memory::offsets::{
    EXPECTED_NUMBER, EXPECTED_TEXT, KEY_NUMBER, KEY_TEXT, VALUE_NUMBER, VALUE_TEXT, WORDS_BUCKET,
    WORDS_KIND,
};
use memory::{Numbers, SLOT_SIZE, SlotWords, TEXT_SIZE, TextBytes};
use server::Words;

// The words of the call of this slot.
pub fn load_words(slots: &SlotWords, texts: &TextBytes, slot: usize) -> Words
    requires { slot < slot_room }
    ensures { result ≡ words_at slots.now texts.now slot }
{
    let numbers = numbers_fields(slots, slot);
    let base = slot * TEXT_SIZE;
    let key = text_from(texts, base + KEY_TEXT, numbers.key as usize);
    let expected = item_from(texts, base + EXPECTED_TEXT, numbers.expected as usize);
    let value = item_from(texts, base + VALUE_TEXT, numbers.value as usize);
    Words {
        kind: numbers.kind,
        bucket: numbers.bucket,
        key,
        expected,
        value,
    }
}

fn numbers_fields(slots: &SlotWords, slot: usize) -> Numbers
    requires { slot < slot_room }
    ensures { result ≡ numbers_fields slots.now slot }
{
    let base = slot * SLOT_SIZE;
    Numbers {
        kind: slots[base + WORDS_KIND],
        bucket: slots[base + WORDS_BUCKET],
        key: slots[base + KEY_NUMBER],
        expected: slots[base + EXPECTED_NUMBER],
        value: slots[base + VALUE_NUMBER],
    }
}

// A key or a value whose ROOM bytes begin at this place; `len` of them count.
fn text_from<const ROOM: usize>(texts: &TextBytes, at: usize, len: usize) -> Text<ROOM>
    requires { at + ROOM ≤ slot_room * text_size }
    ensures { result ≡ text_from ROOM texts.now at len }
{
    let mut bytes = [0; ROOM];
    bytes.copy_from_slice(&texts[at..at + ROOM]);
    Text { bytes, len }
}

// A value by its word: none for 0, else of a length one below it.
#[tactic(auto, using(memory::proofs::Texts::item_there))]
fn item_from(texts: &TextBytes, at: usize, word: usize) -> Option<Value>
    requires { at + value_room ≤ slot_room * text_size }
    ensures { result ≡ item_from texts.now at word }
{
    if word == 0 {
        return None;
    }
    Some(text_from(texts, at, word - 1))
}

// The call of this slot gets these words.
pub fn store_words(slots: &mut SlotWords, texts: &mut TextBytes, slot: usize, words: Words)
    requires { slot < slot_room }
    ensures { (is slots ≡ put_words (was slots) slot words) × (is texts ≡ put_texts (was texts) slot words) }
{
    let numbers = numbers_in(words);
    numbers_stores(slots, slot, numbers);
    store_texts(texts, slot, words);
}

// The word of a value: 0 where there is none, else one above its length.
#[tactic(auto, unfolding(memory::specs::Layout::item_word))]
fn item_word(item: Option<Value>) -> u32
    ensures { result ≡ item_word item }
{
    match item {
        Some(value) => value.length() as u32 + 1,
        None => 0,
    }
}

// The numbers of words: a length above the room is stored as all of it.
fn numbers_in(words: Words) -> Numbers
    ensures { result ≡ numbers_in words }
{
    Numbers {
        kind: words.kind,
        bucket: words.bucket,
        key: words.key.length() as u32,
        expected: item_word(words.expected),
        value: item_word(words.value),
    }
}

fn numbers_stores(slots: &mut SlotWords, slot: usize, numbers: Numbers)
    requires { slot < slot_room }
    ensures { is slots ≡ numbers_stores (was slots) slot numbers }
{
    let base = slot * SLOT_SIZE;
    slots[base + WORDS_KIND] = numbers.kind;
    slots[base + WORDS_BUCKET] = numbers.bucket;
    slots[base + KEY_NUMBER] = numbers.key;
    slots[base + EXPECTED_NUMBER] = numbers.expected;
    slots[base + VALUE_NUMBER] = numbers.value;
}

// The bytes of the key and of both values; those of an absent value are zeros.
#[tactic(auto, unfolding(memory::specs::Layout::put_texts))]
fn store_texts(texts: &mut TextBytes, slot: usize, words: Words)
    requires { slot < slot_room }
    ensures { is texts ≡ put_texts (was texts) slot words }
{
    let base = slot * TEXT_SIZE;
    put_text(texts, base + KEY_TEXT, &words.key);
    put_text(texts, base + EXPECTED_TEXT, &stored_value(words.expected));
    put_text(texts, base + VALUE_TEXT, &stored_value(words.value));
}

// The value whose bytes are stored.
fn stored_value(item: Option<Value>) -> Value
    ensures { result ≡ stored_value item }
{
    item.unwrap_or(Text::empty())
}

// The bytes of a key, or of a value, are stored from this place on.
fn put_text<const ROOM: usize>(texts: &mut TextBytes, at: usize, text: &Text<ROOM>)
    requires { at + ROOM ≤ slot_room * text_size }
    ensures { is texts ≡ paste (was texts) at text.now.bytes ROOM }
{
    texts[at..at + ROOM].copy_from_slice(&text.bytes);
}
