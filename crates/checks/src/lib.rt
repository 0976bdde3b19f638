// Tests on decoded tables: whether one has a bucket form, and whether its own numbers are within its arrays.
#![tactic(auto)]

ghost use Rattle.std.specs.Prelude.{◌≡◌, ◌∷◌, []};
ghost use Rattle.entries.specs.Decoded.{entry_in, table_in};
ghost use Rattle.table.specs.Form.{sized, rising, fits};
ghost use Rattle.std.specs.List.{list_all};
ghost use Rattle.checks.specs.Tests.{sound_slots, sound, Sized, before};

use entries::keys::compare;
use entries::{Decoded, KEY_ROOM, Slot, TABLE_ROOM, VALUE_ROOM};

// A key of 1 to 8 bytes; no value has more than 16.
fn entry_sized(slot: Slot) -> bool
    ensures { result ≡ sized 16 (entry_in slot ∷ []) }
{
    slot.key.length() != 0
}

// The same of each of these.
fn each_sized(slots: &[Slot]) -> bool
    ensures { result ≡ list_all (λ s. sized 16 (entry_in s ∷ [])) slots.now }
{
    slots.iter().all(|slot| entry_sized(*slot))
}

// The same of every entry.
fn all_sized(table: Decoded) -> bool
    ensures { Sized (table_in table) result }
{
    each_sized(table.used())
}

// Whether the key of one slot is before that of the next.
fn is_before(slot: &Slot, next: &Slot) -> bool
    ensures { result ≡ before slot.now next.now }
{
    compare(slot.key, next.key).is_lt()
}

// Each key is before the next.
fn all_rising(table: Decoded) -> bool
    ensures { result ≡ rising (table_in table) }
{
    table
        .used()
        .is_sorted_by(|slot, next| is_before(slot, next))
}

// Whether a decoded table has a bucket form.
pub fn fits(table: Decoded) -> bool
    ensures { result ≡ fits 4 16 (table_in table) }
{
    all_sized(table) && all_rising(table)
}

// Whether the numbers of a slot are within its arrays.
fn slot_sound(slot: Slot) -> bool
    ensures { result ≡ sound_slots (slot ∷ []) }
{
    slot.key.len <= KEY_ROOM && slot.value.len <= VALUE_ROOM
}

// The same of each of these.
fn each_sound(slots: &[Slot]) -> bool
    ensures { result ≡ list_all (λ s. sound_slots (s ∷ [])) slots.now }
{
    slots.iter().all(|slot| slot_sound(*slot))
}

// Whether the count and the lengths in use are within the arrays.
pub fn sound(table: Decoded) -> bool
    ensures { result ≡ sound table }
{
    table.count <= TABLE_ROOM && each_sound(&table.slots[..table.count])
}
