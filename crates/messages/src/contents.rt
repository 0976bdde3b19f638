// Contents of buckets in lent bytes, a block for each: those of the copies, working contents, and those of the messages.
ghost use Rattle.std.specs.Prelude.{◌≡◌, ◌+◌, ◌*◌, ◌<◌, ◌≤◌, length};
ghost use Rattle.blocks.specs.Blocks.{block};
ghost use Rattle.memory.specs.Layout.{slot_room, content_size, put_content};
ghost use Rattle.memory.specs.Lent.{was, is};

use memory::{CONTENT_SIZE, CONTENTS_LEN};

// Content `from` of src, which is another array of contents, becomes the content of slot `to`.
pub fn copy_content(dst: &mut [u8; CONTENTS_LEN], to: usize, src: &[u8], from: usize)
    requires { (to < slot_room) × ((from + 1) * content_size ≤ length src.now) }
    ensures { is dst ≡ put_content (was dst) to (block content_size from src.now) }
{
    blocks::copy_block_bytes(dst, CONTENT_SIZE, to, src, from);
}
