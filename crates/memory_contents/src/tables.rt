// The bucket form of a table, written as a content.
ghost use Rattle.std.specs.Prelude.{◌≡◌, ◌<◌, length};
ghost use Rattle.entries.specs.Decoded.{table_in};
ghost use Rattle.memory.specs.Layout.{slot_room};
ghost use Rattle.memory_regions.specs.Contents.{byte_count, content_room, old_contents, new_contents, working_of, put_working};
ghost use Rattle.memory_contents.specs.Tables.{form_over, PutsTable};

use encoding::encode;
use entries::Decoded;
use memory::CONTENT_SIZE;
use memory_regions::{Bytes, FIRST_WORKING};

// The working content of this slot becomes the bucket form of a table.
pub fn working_from_table(bytes: &mut Bytes, slot: usize, table: Decoded)
    requires { slot < slot_room }
    ensures { new_contents bytes ≡ put_working (old_contents bytes) slot (form_over (table_in table) (working_of (old_contents bytes) slot)) }
{
    put_table(bytes, FIRST_WORKING + slot, table);
}

// The same of any content, with the array lent as a slice, so that the content alone can be lent on.
fn put_table(bytes: &mut [u8], content: usize, table: Decoded)
    requires { (content < content_room) × (length bytes.old ≡ byte_count) }
    ensures { PutsTable bytes content (table_in table) }
{
    let from = content * CONTENT_SIZE;
    let end = from + CONTENT_SIZE;
    encode(table, &mut bytes[from..end]);
}
