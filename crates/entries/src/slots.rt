// Decoded tables by value: a key is looked up, stored and removed.
ghost use Rattle.std.specs.Prelude.{◌≡◌, [], ◌++◌, ◌∷◌, ◌<◌, ◌+◌, ◌≤◌, length, map, take, drop, set};
ghost use Rattle.std.proofs.Math.Option.{some};
ghost use Rattle.entries.specs.Entries.{value_of, remove, stored};
ghost use Rattle.entries.specs.Decoded.{Counted, key_bytes, value_bytes, item_in, no_slot, entry_in, table_in};
ghost use Rattle.entries.specs.Places.{Placed, stored_in};

use crate::keys::compare;
use crate::{Decoded, Full, Key, Slot, TABLE_ROOM, Text, Value};
use std::cmp::Ordering;

// The last slot of a table.
const LAST: usize = TABLE_ROOM - 1;

// How many slots of a table count: all four where its count says more.
pub fn count_of(table: Decoded) -> usize
    ensures { Counted table result }
{
    table.count.min(TABLE_ROOM)
}

impl Decoded {
    // The slots that count.
    pub fn used(&self) -> &[Slot]
        ensures entries { map entry_in result.now ≡ table_in self.now }
        ensures low { length result.now ≤ 4 }
    {
        &self.slots[..count_of(*self)]
    }
}

// How many keys of a table stand before this key: `Ok` where it is the next, `Err` where the table doesn't hold it.
// The search ends at the first key that is not before it, in a table out of order too.
fn place(table: Decoded, key: Key) -> Result<usize, usize>
    ensures { Placed (key_bytes key) (table_in table) result }
{
    for (at, slot) in table.used().iter().enumerate() {
        match compare(key, slot.key) {
            Ordering::Less => return Err(at),
            Ordering::Equal => return Ok(at),
            Ordering::Greater => {}
        }
    }
    Err(count_of(table))
}

// The value of a key, none where it is absent.
pub fn find(table: Decoded, key: Key) -> Option<Value>
    ensures { item_in result ≡ value_of (key_bytes key) (table_in table) }
{
    match place(table, key) {
        Ok(at) => Some(table.slots[at].value),
        Err(_) => None,
    }
}

// The slots with this one at `at`; those from there on move up by one, and the last falls out.
fn inserted(slots: [Slot; TABLE_ROOM], at: usize, slot: Slot) -> [Slot; TABLE_ROOM]
    requires { at < 4 }
    ensures { result ≡ take 4 (take at slots ++ (slot ∷ drop at slots)) }
{
    let mut out = slots;
    out.copy_within(at..LAST, at + 1);
    out[at] = slot;
    out
}

// The slots without that at `at`; those above move down by one, and the last stays.
fn removed(slots: [Slot; TABLE_ROOM], at: usize) -> [Slot; TABLE_ROOM]
    requires { at < 4 }
    ensures { take 3 result ≡ take at slots ++ drop (at + 1) slots }
{
    let mut out = slots;
    out.copy_within(at + 1.., at);
    out
}

// The table without a key.
pub fn remove(table: Decoded, key: Key) -> Decoded
    ensures { table_in result ≡ remove (key_bytes key) (table_in table) }
{
    match place(table, key) {
        Ok(at) => Decoded {
            count: count_of(table) - 1,
            slots: removed(table.slots, at),
        },
        Err(_) => table,
    }
}

// The table in which the key has this value; an absent one takes the key away. A new key is refused where four others stand.
pub fn store(table: Decoded, key: Key, item: Option<Value>) -> Result<Decoded, Full>
    ensures { stored_in result ≡ stored 4 (key_bytes key) (item_in item) (table_in table) }
{
    match item {
        Some(value) => put(table, key, value),
        None => Ok(remove(table, key)),
    }
}

// The same, for a value that is there. It may have no bytes.
fn put(table: Decoded, key: Key, value: Value) -> Result<Decoded, Full>
    ensures { stored_in result ≡ stored 4 (key_bytes key) (some (value_bytes value)) (table_in table) }
{
    let slot = Slot { key, value };
    let count = count_of(table);
    let mut slots = table.slots;
    match place(table, key) {
        Ok(at) => {
            slots[at] = slot;
            Ok(Decoded { count, slots })
        }
        Err(at) if count < TABLE_ROOM => Ok(Decoded {
            count: count + 1,
            slots: inserted(slots, at, slot),
        }),
        Err(_) => Err(Full),
    }
}

// A slot that holds nothing.
pub fn blank_slot() -> Slot
    ensures { result ≡ no_slot }
{
    Slot {
        key: Text::empty(),
        value: Text::empty(),
    }
}

// A table of no entries; its slots hold nothing.
pub fn no_table() -> Decoded
    ensures { (result.count ≡ 0) × (table_in result ≡ []) }
{
    Decoded {
        count: 0,
        slots: [blank_slot(); TABLE_ROOM],
    }
}
