// Keys and values by value: how long they are, how keys stand to each other, and how they are made of lent bytes.
ghost use Rattle.std.specs.Prelude.{◌≡◌, ◌≤◌, take};
ghost use Rattle.entries.specs.Entries.{order};
ghost use Rattle.entries.specs.Decoded.{Cut, key_bytes, text_bytes, empty_text};

use crate::{Key, Text};
use std::cmp::Ordering;

impl<const ROOM: usize> Text<ROOM> {
    // The text of the lent bytes, of the first ROOM where there are more.
    pub fn of(bytes: &[u8]) -> Self
        ensures bytes { text_bytes result ≡ take ROOM bytes.now }
        ensures low { result.len ≤ ROOM }
    {
        let len = bytes.len().min(ROOM);
        let mut kept = [0u8; ROOM];
        kept[..len].copy_from_slice(&bytes[..len]);
        Text { bytes: kept, len }
    }

    // The text of no bytes.
    pub fn empty() -> Self
        ensures { result ≡ empty_text ROOM }
    {
        Text {
            bytes: [0; ROOM],
            len: 0,
        }
    }

    // How many bytes count.
    pub fn length(&self) -> usize
        ensures { Cut ROOM (text_bytes self.now) result }
    {
        self.len.min(ROOM)
    }

    // The bytes that count.
    pub fn as_slice(&self) -> &[u8]
        ensures { result.now ≡ text_bytes self.now }
    {
        &self.bytes[..self.length()]
    }
}

// How key a stands to key b: by the first byte that differs; a shorter key before its extensions.
pub fn compare(a: Key, b: Key) -> Ordering
    ensures { result ≡ order (key_bytes a) (key_bytes b) }
{
    a.as_slice().cmp(b.as_slice())
}
