// What a call found, in a small lent array of bytes: how many items there are, then for each its length and its bytes. The value of
// a `get` is one item, the keys of `keys` are at most four. What stands behind the items stays as it was.
#![tactic(auto)]

use entries::{KEY_ROOM, TABLE_ROOM};

pub mod reading;
pub mod writing;

// Where the first item begins, behind their number.
pub const ITEMS_AT: usize = 1;

// The bytes of the longest key with its length, and of the array: room for as many of them as a table has. A value is shorter.
pub const ITEM_ROOM: usize = 1 + KEY_ROOM;

pub const FOUND_LEN: usize = ITEMS_AT + TABLE_ROOM * ITEM_ROOM;

pub type FoundBytes = [u8; FOUND_LEN];
