// Contents of buckets in the lent bytes: those of copies, working contents, and those of messages. One is copied to another here; a
// table is written as one in `tables`.
#![tactic(auto)]

ghost use Rattle.std.specs.Prelude.{◌≡◌, ◌<◌};
ghost use Rattle.memory.specs.Layout.{slot_room, message_room};
ghost use Rattle.memory_regions.specs.Contents.{content_room, old_content, old_contents, new_contents, copy_of, working_of, payload_of, put_copy, put_working, put_payload};
ghost use Rattle.memory_contents.specs.Copied.{CopiesContent};

use memory::CONTENT_SIZE;
use memory_regions::{Bytes, FIRST_COPY, FIRST_PAYLOAD, FIRST_WORKING};

pub mod tables;

// Content `to` gets the bytes of content `from`; both are numbers of blocks of the whole array.
pub fn copy_content(bytes: &mut Bytes, to: usize, from: usize)
    requires { (to < content_room) × (from < content_room) }
    ensures { CopiesContent bytes to from }
{
    let start = from * CONTENT_SIZE;
    bytes.copy_within(start..start + CONTENT_SIZE, to * CONTENT_SIZE);
}

// The working content of this slot gets the bytes of the content of its copy.
pub fn working_from_copy(bytes: &mut Bytes, slot: usize)
    requires { slot < slot_room }
    ensures { new_contents bytes ≡ put_working (old_contents bytes) slot (copy_of (old_contents bytes) slot) }
{
    copy_content(bytes, FIRST_WORKING + slot, FIRST_COPY + slot);
}

// The working content of this slot gets the bytes of that of the message at this place.
pub fn working_from_payload(bytes: &mut Bytes, slot: usize, place: usize)
    requires { (slot < slot_room) × (place < message_room) }
    ensures { new_contents bytes ≡ put_working (old_contents bytes) slot (payload_of (old_contents bytes) place) }
{
    copy_content(bytes, FIRST_WORKING + slot, FIRST_PAYLOAD + place);
}

// The content of the copy at this slot gets the bytes of the working content.
pub fn copy_from_working(bytes: &mut Bytes, slot: usize)
    requires { slot < slot_room }
    ensures { new_contents bytes ≡ put_copy (old_contents bytes) slot (working_of (old_contents bytes) slot) }
{
    copy_content(bytes, FIRST_COPY + slot, FIRST_WORKING + slot);
}

// The content of the copy at this slot gets the bytes of that of the message at this place.
pub fn copy_from_payload(bytes: &mut Bytes, slot: usize, place: usize)
    requires { (slot < slot_room) × (place < message_room) }
    ensures { new_contents bytes ≡ put_copy (old_contents bytes) slot (payload_of (old_contents bytes) place) }
{
    copy_content(bytes, FIRST_COPY + slot, FIRST_PAYLOAD + place);
}

// The content of the message at this place gets the bytes of content `from`, a number of a block of the whole array.
pub fn payload_from_content(bytes: &mut Bytes, place: usize, from: usize)
    requires { (place < message_room) × (from < content_room) }
    ensures { new_contents bytes ≡ put_payload (old_contents bytes) place (old_content bytes from) }
{
    copy_content(bytes, FIRST_PAYLOAD + place, from);
}
