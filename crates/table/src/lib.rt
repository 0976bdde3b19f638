// The bucket form (RULES, Bucket bytes), tables of up to four keys as 113 bytes: definitions in specs/, laws in proofs/.
#![tactic(auto)]

use entries::{KEY_ROOM, TABLE_ROOM, VALUE_ROOM};

// Where the entries' bytes begin, behind the count; and how many they are for each entry: the offset and the length of its key,
// and the offset and the length of its value.
pub const ENTRIES_AT: usize = 1;

pub const ENTRY_SIZE: usize = 4;

// Where the lengths of the first entry stand, of its key and of its value.
pub const KEY_LEN_AT: usize = ENTRIES_AT + 1;

pub const VALUE_LEN_AT: usize = ENTRIES_AT + 3;

// The bytes of a table: its count, those of its entries, then room for each entry's longest key and value.
pub const BUCKET_SIZE: usize = ENTRIES_AT
    + ENTRY_SIZE * TABLE_ROOM
    + TABLE_ROOM * (KEY_ROOM + VALUE_ROOM);
