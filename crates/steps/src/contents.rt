// Contents of buckets: what a move makes of a slot's working content and of its copy's content.
ghost use Rattle.std.specs.Prelude.{◌≡◌, ◌<◌, ◌*◌, length};
ghost use Rattle.entries.specs.Decoded.{table_in};
ghost use Rattle.memory.specs.Layout.{slot_room, message_room, content_size};
ghost use Rattle.memory.specs.Lent.{was, is};
ghost use Rattle.views.specs.Changes.{put_table, filled_from, kept_from};

use encoding::encode;
use entries::Decoded;
use memory::{CONTENT_SIZE, CopyBytes, PayloadBytes, WorkingBytes};
use messages::contents::copy_content;
use moves::{Filling, Keeping};

// The bucket form of a table becomes the content of this slot.
fn put_table(working: &mut [u8], slot: usize, table: Decoded)
    requires { (slot < slot_room) × (length working.old ≡ slot_room * content_size) }
    ensures { is working ≡ put_table (was working) slot (table_in table) }
{
    let from = slot * CONTENT_SIZE;
    let end = from + CONTENT_SIZE;
    encode(table, &mut working[from..end]);
}

// The working content of this slot, by what fills it; `place` is that of the message handed over.
#[tactic(auto, unfolding(views::specs::Changes::filled_from))]
pub fn fill_work(
    working: &mut WorkingBytes,
    copies: &CopyBytes,
    payloads: &PayloadBytes,
    slot: usize,
    place: usize,
    fills: Filling,
    table: Decoded,
)
    requires { (slot < slot_room) × (place < message_room) }
    ensures { is working ≡ filled_from (was working) copies.now payloads.now slot place (table_in table) fills }
{
    match fills {
        Filling::Stays => {}
        Filling::Copy => copy_content(working, slot, copies, slot),
        Filling::Table => put_table(working, slot, table),
        Filling::Message => copy_content(working, slot, payloads, place),
    }
}

// The content of the copy at this slot, by what is kept.
#[tactic(auto, unfolding(views::specs::Changes::kept_from))]
pub fn keep_copy(
    copies: &mut CopyBytes,
    working: &WorkingBytes,
    payloads: &PayloadBytes,
    slot: usize,
    place: usize,
    keeps: Keeping,
)
    requires { (slot < slot_room) × (place < message_room) }
    ensures { is copies ≡ kept_from (was copies) working.now payloads.now slot place keeps }
{
    match keeps {
        Keeping::Stays => {}
        Keeping::Working => copy_content(copies, slot, working, slot),
        Keeping::Message => copy_content(copies, slot, payloads, place),
    }
}
