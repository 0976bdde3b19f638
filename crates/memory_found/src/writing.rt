// A value or keys, written as items.
ghost use Rattle.std.specs.Prelude.{◌≡◌, [], ◌∷◌, ◌≤◌, ◌<◌, ◌+◌, length};
ghost use Rattle.entries.specs.Entries.{keys_of};
ghost use Rattle.entries.specs.Decoded.{text_bytes, value_bytes, table_in};
ghost use Rattle.memory.specs.Lent.{was, is};
ghost use Rattle.memory_found.specs.Found.{found_len, put_found};
ghost use Rattle.memory_found.specs.Steps.{ItemPut, ItemsPut};

use crate::{FoundBytes, ITEMS_AT};
use entries::{Decoded, Text, Value};

// The value that a `get` found.
pub fn put_value(found: &mut FoundBytes, value: Value)
    ensures { is found ≡ put_found (was found) (value_bytes value ∷ []) }
{
    found[0] = 1;
    put_item(found, ITEMS_AT, &value);
}

// The keys of a table, in order.
pub fn put_keys(found: &mut FoundBytes, table: Decoded)
    ensures { is found ≡ put_found (was found) (keys_of (table_in table)) }
{
    found[0] = table.used().len() as u8;
    put_each_key(found, table);
}

// The keys as items, without their number.
fn put_each_key(found: &mut [u8], table: Decoded)
    requires { length found.old ≡ found_len }
    ensures { ItemsPut (keys_of (table_in table)) (was found) (is found) }
{
    let mut at = ITEMS_AT;
    for slot in table.used() {
        at = put_item(found, at, &slot.key);
    }
}

// A key or value as the item that begins at `at`. The answer is where it ends.
fn put_item<const ROOM: usize>(found: &mut [u8], at: usize, item: &Text<ROOM>) -> usize
    requires { (ROOM < 256) × (at + 1 + ROOM ≤ length found.old) }
    ensures { ItemPut ROOM (text_bytes item.now) (was found) at (is found) result }
{
    let len = item.length();
    let from = at + 1;
    let end = from + len;
    found[at] = len as u8;
    found[from..end].copy_from_slice(item.as_slice());
    end
}
