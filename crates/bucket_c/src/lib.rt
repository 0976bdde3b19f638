// The calls on bucket bytes for programs in other languages: numbers and slices only. Crate `bucket_c_c` exports them.
#![tactic(auto)]

ghost use Rattle.std.specs.Prelude.{◌≡◌, ◌≤◌, ◌<◌, ◌+◌, ◌*◌, length, map, get_or};
ghost use Rattle.entries.specs.Decoded.{key_bytes, value_bytes};
ghost use Rattle.table.specs.Form.{read_number};
ghost use Rattle.bucket.specs.Answers.{numbered, write_of};
ghost use Rattle.bucket_calls.specs.Answers.{put_of, remove_of};
ghost use Rattle.bucket_c.specs.Exports.{text_from, slot_from, table_from, written_out, get_of, keys_bytes, keys_out};

use bucket::{Malformed, WriteError, read, write};
use bucket_calls::{ChangeError, list_keys, look_up, put, remove};
use entries::{Decoded, KEY_ROOM, Key, Slot, Text, VALUE_ROOM, Value};
use std::array;

// The answers are numbers, and a table is two slices of bytes, since this is the interface for C (`bucket_c_c`).
// The refusals, and the same where the number is else a length or a count, which may be 13 or 15.
pub const MALFORMED: u32 = 13;

pub const SHORT: u32 = 15;

const HIGH_MALFORMED: u32 = 113;

const HIGH_SHORT: u32 = 115;

// `full` and an absent key are no refusals: their numbers are above those of all refusals.
const FULL: u32 = 255;

const ABSENT: u32 = 254;

// Of each entry that is handed over: how many lengths, and the room of its key and its value.
const LENGTHS: usize = 2;

const ENTRY_ROOM: usize = KEY_ROOM + VALUE_ROOM;

// 0 where the bytes are a bucket, 13 else.
pub fn bucket_read(bucket: &[u8]) -> u32
    ensures { result ≡ read_number 4 16 bucket.now }
{
    match read(bucket) {
        Ok(_) => 0,
        Err(Malformed) => MALFORMED,
    }
}

// The byte at i, 0 where there is none.
pub fn byte_at(bytes: &[u8], i: usize) -> u8
    ensures { result ≡ get_or bytes.now i 0 }
{
    bytes.get(i).copied().unwrap_or(0)
}

// The bytes from `at` on, zeros where there are none, with a length that may be any.
fn text_from<const ROOM: usize>(bytes: &[u8], at: usize, len: usize) -> Text<ROOM>
    requires { at + ROOM < 256 }
    ensures { result ≡ text_from ROOM bytes.now at len }
{
    let mut kept = [0; ROOM];
    for (i, byte) in kept.iter_mut().enumerate() {
        *byte = byte_at(bytes, at + i);
    }
    Text { bytes: kept, len }
}

// Entry i of two slices.
fn slot_from(lengths: &[u8], bytes: &[u8], i: usize) -> Slot
    requires { i < 4 }
    ensures { result ≡ slot_from lengths.now bytes.now i }
{
    let key_len = usize::from(byte_at(lengths, LENGTHS * i));
    let value_len = usize::from(byte_at(lengths, LENGTHS * i + 1));
    Slot {
        key: text_from(bytes, ENTRY_ROOM * i, key_len),
        value: text_from(bytes, ENTRY_ROOM * i + KEY_ROOM, value_len),
    }
}

// The table of two slices, whatever its count.
pub fn table_from(count: usize, lengths: &[u8], bytes: &[u8]) -> Decoded
    ensures { result ≡ table_from count lengths.now bytes.now }
{
    Decoded {
        count,
        slots: array::from_fn(|i| slot_from(lengths, bytes, i)),
    }
}

// The form of a table of `count` entries. Entry i has its key's length at 2i of `lengths` and its value's at 2i + 1, its key
// at 24i of `bytes` and its value at 24i + 8; missing bytes are 0.
pub fn bucket_write(count: usize, lengths: &[u8], bytes: &[u8], out: &mut [u8]) -> u32
    ensures { numbered result out.new ≡ write_of (table_from count lengths.now bytes.now) out.old }
{
    match write(table_from(count, lengths, bytes), out) {
        Ok(()) => 0,
        Err(WriteError::Malformed) => MALFORMED,
        Err(WriteError::Short) => SHORT,
    }
}

// A value, written to `out`: its length, 115 where `out` is too short.
fn put_found(value: Value, out: &mut [u8]) -> u32
    ensures { numbered result out.new ≡ written_out (length (value_bytes value)) (value_bytes value) out.old }
{
    let len = value.length();
    if out.len() < len {
        return HIGH_SHORT;
    }
    out[..len].copy_from_slice(value.as_slice());
    len as u32
}

// The value of a key, written to `out`: its length, 254 where the key is absent, 113 where the bucket is refused, 115 where
// `out` is too short.
pub fn bucket_get(bucket: &[u8], key: &[u8], out: &mut [u8]) -> u32
    ensures { numbered result out.new ≡ get_of bucket.now key.now out.old }
{
    match look_up(bucket, key) {
        Ok(Some(value)) => put_found(value, out),
        Ok(None) => ABSENT,
        Err(Malformed) => HIGH_MALFORMED,
    }
}

// A key's new value, which may have no bytes: 0, or 255 where there is no room, or 13.
pub fn bucket_put(bucket: &mut [u8], key: &[u8], value: &[u8]) -> u32
    ensures { numbered result bucket.new ≡ put_of bucket.old key.now value.now }
{
    match put(bucket, key, value) {
        Ok(()) => 0,
        Err(ChangeError::Full) => FULL,
        Err(ChangeError::Malformed) => MALFORMED,
    }
}

// The bucket without a key: 0 or 13.
pub fn bucket_remove(bucket: &mut [u8], key: &[u8]) -> u32
    ensures { numbered result bucket.new ≡ remove_of bucket.old key.now }
{
    match remove(bucket, key) {
        Ok(()) => 0,
        Err(Malformed) => MALFORMED,
    }
}

// How many bytes the keys take, each behind its length.
fn keys_room(keys: &[Key]) -> usize
    requires { length keys.now ≤ 4 }
    ensures { result ≡ length (keys_bytes (map key_bytes keys.now)) }
{
    let mut room = 0;
    for key in keys {
        room += 1 + key.length();
    }
    room
}

// The keys, each behind its length, written to `out`. The answer is how many they are.
fn put_keys(out: &mut [u8], keys: &[Key]) -> u32
    requires few { length keys.now ≤ 4 }
    requires room { length (keys_bytes (map key_bytes keys.now)) ≤ length out.old }
    ensures { numbered result out.new ≡ written_out (length keys.now) (keys_bytes (map key_bytes keys.now)) out.old }
{
    let mut at = 0;
    for key in keys {
        let len = key.length();
        out[at] = len as u8;
        out[at + 1..at + 1 + len].copy_from_slice(key.as_slice());
        at += 1 + len;
    }
    keys.len() as u32
}

// All keys, rising, each behind its length, written to `out`: how many they are, 113 where the bucket is refused, 115 where
// they do not fit. 36 bytes are room enough for any bucket's keys.
pub fn bucket_keys(bucket: &[u8], out: &mut [u8]) -> u32
    ensures { numbered result out.new ≡ keys_out bucket.now out.old }
{
    match list_keys(bucket) {
        Ok(list) => {
            let keys = &list.keys[..list.count];
            let room = keys_room(keys);
            if out.len() < room {
                return HIGH_SHORT;
            }
            put_keys(out, keys)
        }
        Err(Malformed) => HIGH_MALFORMED,
    }
}
