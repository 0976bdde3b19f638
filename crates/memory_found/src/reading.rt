// How many items there are, and the bytes of each. Any bytes stand for items: where a length says more than is left, all that is left
// counts, and an item that would begin behind the array has no bytes.
ghost use Rattle.std.specs.Prelude.{◌≡◌, [], take, drop, get_or};
ghost use Rattle.memory_found.specs.Found.{found_in};
ghost use Rattle.memory_found.specs.Steps.{FoundCount};

use crate::{FoundBytes, ITEMS_AT};
use entries::TABLE_ROOM;

// The number of items, four where the array says more.
pub fn found_count(found: &FoundBytes) -> usize
    ensures { FoundCount found.now result }
{
    usize::from(found[0]).min(TABLE_ROOM)
}

// The bytes of item i. There is none from the number of items on; no bytes are answered then.
pub fn found_at(found: &FoundBytes, i: usize) -> &[u8]
    ensures { result.now ≡ get_or (found_in found.now) i [] }
{
    if found_count(found) <= i {
        return &[];
    }
    let mut rest = &found[ITEMS_AT..];
    for _ in 0..i {
        rest = after_item(rest);
    }
    first_item(rest)
}

// The bytes of the first item: as many as its length says, behind it.
fn first_item(items: &[u8]) -> &[u8]
    ensures { result.now ≡ take (get_or items.now 0 0) (drop 1 items.now) }
{
    match items {
        [] => items,
        [len, rest @ ..] => &rest[..usize::from(*len).min(rest.len())],
    }
}

// The bytes behind the first item.
fn after_item(items: &[u8]) -> &[u8]
    ensures { result.now ≡ drop (get_or items.now 0 0) (drop 1 items.now) }
{
    match items {
        [] => items,
        [len, rest @ ..] => &rest[usize::from(*len).min(rest.len())..],
    }
}
