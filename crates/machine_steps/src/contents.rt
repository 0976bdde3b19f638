// Contents of buckets: what a move makes of a slot's working content and of its copy's content.
ghost use Rattle.std.specs.Prelude.{◌≡◌, ◌<◌};
ghost use Rattle.entries.specs.Decoded.{table_in};
ghost use Rattle.memory.specs.Layout.{slot_room, message_room};
ghost use Rattle.memory_regions.specs.Contents.{old_contents, new_contents};
ghost use Rattle.machine_steps.specs.Moved.{filled_contents, kept_contents};

use entries::Decoded;
use memory_contents::tables::working_from_table;
use memory_contents::{
    copy_from_payload, copy_from_working, working_from_copy, working_from_payload,
};
use memory_regions::Bytes;
use moves::{Filling, Keeping};

// The working content of this slot, by what fills it; `place` is that of the message handed over.
#[tactic(auto, unfolding(views::specs::Changes::filled_from, views::specs::Changes::put_table))]
pub fn fill_work(bytes: &mut Bytes, slot: usize, place: usize, fills: Filling, table: Decoded)
    requires { (slot < slot_room) × (place < message_room) }
    ensures { new_contents bytes ≡ filled_contents (old_contents bytes) slot place (table_in table) fills }
{
    match fills {
        Filling::Stays => {}
        Filling::Copy => working_from_copy(bytes, slot),
        Filling::Table => working_from_table(bytes, slot, table),
        Filling::Message => working_from_payload(bytes, slot, place),
    }
}

// The content of the copy at this slot, by what is kept.
#[tactic(auto, unfolding(views::specs::Changes::kept_from))]
pub fn keep_copy(bytes: &mut Bytes, slot: usize, place: usize, keeps: Keeping)
    requires { (slot < slot_room) × (place < message_room) }
    ensures { new_contents bytes ≡ kept_contents (old_contents bytes) slot place keeps }
{
    match keeps {
        Keeping::Stays => {}
        Keeping::Working => copy_from_working(bytes, slot),
        Keeping::Message => copy_from_payload(bytes, slot, place),
    }
}
