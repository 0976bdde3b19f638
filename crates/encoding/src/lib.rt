// From a decoded table to bucket bytes.
#![tactic(auto)]

ghost use Rattle.std.specs.Prelude.{◌≡◌, ◌++◌, ◌≤◌, ◌<◌, ◌+◌, ◌*◌, length, drop};
ghost use Rattle.std.proofs.lemmas.List.Edits.{sets};
ghost use Rattle.entries.specs.Decoded.{text_bytes, table_in};
ghost use Rattle.table.specs.Form.{header, bucket_bytes};
ghost use Rattle.table.specs.Steps.{Offsets, Entered, Bodied};

use entries::{Decoded, Slot, Text};
use table::{BUCKET_SIZE, ENTRIES_AT, ENTRY_SIZE};

// The bytes of a key or a value from `at` on.
pub fn put_text<const ROOM: usize>(out: &mut [u8], at: usize, text: &Text<ROOM>)
    requires { at + length (text_bytes text.now) ≤ length out.old }
    ensures { out.new ≡ sets out.old at (text_bytes text.now) }
{
    let bytes = text.as_slice();
    out[at..at + bytes.len()].copy_from_slice(bytes);
}

// The offsets and lengths of entry i, whose key begins at `at`. The answer is where the next key begins.
fn put_offsets(out: &mut [u8], i: usize, at: usize, slot: Slot) -> usize
    requires { (5 + 4 * i ≤ length out.old) × ((i < 4) × (at ≤ 113)) }
    ensures { Offsets i at slot out.old out.new result }
{
    let key_len = slot.key.length();
    let value_len = slot.value.length();
    let mid = at + key_len;
    let row = ENTRIES_AT + ENTRY_SIZE * i;
    out[row..row + ENTRY_SIZE].copy_from_slice(&[
        at as u8,
        key_len as u8,
        mid as u8,
        value_len as u8,
    ]);
    mid + value_len
}

// The offsets and lengths, from byte 1 on.
fn put_header(out: &mut [u8], table: Decoded)
    requires { 17 ≤ length out.old }
    ensures { out.new ≡ sets out.old 1 (header (1 + 4 * length (table_in table)) (table_in table)) }
{
    let slots = table.used();
    let mut at = ENTRIES_AT + ENTRY_SIZE * slots.len();
    for (i, slot) in slots.iter().enumerate() {
        at = put_offsets(out, i, at, *slot);
    }
}

// The key and the value of an entry, from `at` on. The answer is where they end.
fn put_entry(out: &mut [u8], at: usize, slot: Slot) -> usize
    requires { at + 24 ≤ length out.old }
    ensures { Entered at slot out.old out.new result }
{
    let mid = at + slot.key.length();
    let end = mid + slot.value.length();
    put_text(out, at, &slot.key);
    put_text(out, mid, &slot.value);
    end
}

// The keys and values, after the offsets and lengths. The answer is where they end.
fn put_body(out: &mut [u8], table: Decoded) -> usize
    requires { 113 ≤ length out.old }
    ensures { Bodied (table_in table) out.old out.new result }
{
    let slots = table.used();
    let mut at = ENTRIES_AT + ENTRY_SIZE * slots.len();
    for slot in slots {
        at = put_entry(out, at, *slot);
    }
    at
}

// The bucket form of a table, written over the first 113 bytes.
pub fn encode(table: Decoded, out: &mut [u8])
    requires { 113 ≤ length out.old }
    ensures { out.new ≡ bucket_bytes 4 16 (table_in table) ++ drop 113 out.old }
{
    out[0] = table.used().len() as u8;
    put_header(out, table);
    let end = put_body(out, table);
    out[end..BUCKET_SIZE].fill(0);
}
