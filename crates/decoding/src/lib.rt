// From bucket bytes to a decoded table, by the count and the lengths in them, whatever they are.
#![tactic(auto)]

ghost use Rattle.std.specs.Prelude.{◌≡◌, ◌≤◌, ◌<◌, ◌+◌, min, length, get_or};
ghost use Rattle.table.specs.Steps.{CutOut, Decodes};

use entries::slots::blank_slot;
use entries::{Decoded, KEY_ROOM, Key, Slot, TABLE_ROOM, VALUE_ROOM, Value};
use table::{ENTRIES_AT, ENTRY_SIZE, KEY_LEN_AT, VALUE_LEN_AT};

// The byte at i, or `top` where it is above.
fn cut_at(bucket: &[u8], i: usize, top: usize) -> usize
    requires { i < length bucket.now }
    ensures { result ≡ min top (get_or bucket.now i 0) }
{
    usize::from(bucket[i]).min(top)
}

// The entry whose key has `key_len` bytes from `at` on, and whose value has the `value_len` after them.
fn slot_at(bucket: &[u8], at: usize, key_len: usize, value_len: usize) -> Slot
    requires { (key_len ≤ 8) × ((value_len ≤ 16) × (at + key_len + value_len ≤ length bucket.now)) }
    ensures { CutOut bucket.now at key_len value_len result }
{
    let mid = at + key_len;
    Slot {
        key: Key::of(&bucket[at..mid]),
        value: Value::of(&bucket[mid..mid + value_len]),
    }
}

// The table that 113 bytes stand for.
pub fn decode(bucket: &[u8]) -> Decoded
    requires { length bucket.now ≡ 113 }
    ensures { Decodes bucket.now result }
{
    let count = cut_at(bucket, 0, TABLE_ROOM);
    let mut slots = [blank_slot(); TABLE_ROOM];
    let mut at = ENTRIES_AT + ENTRY_SIZE * count;
    for i in 0..count {
        let key_len = cut_at(bucket, ENTRY_SIZE * i + KEY_LEN_AT, KEY_ROOM);
        let value_len = cut_at(bucket, ENTRY_SIZE * i + VALUE_LEN_AT, VALUE_ROOM);
        slots[i] = slot_at(bucket, at, key_len, value_len);
        at += key_len + value_len;
    }
    Decoded { count, slots }
}
