// A new cluster: all numbers 0, all copies empty and all places of messages free.
ghost use Rattle.std.specs.Prelude.{◌≡◌, replicate};
ghost use Rattle.memory_regions.specs.Regions.{old_regions, new_regions, with_heads, with_slots};
ghost use Rattle.memory_regions.specs.Contents.{old_contents, new_contents, with_copies};
ghost use Rattle.views.specs.Arrays.{old_memory, new_memory};
ghost use Rattle.runs.specs.Runs.{fresh_counts, fresh_memory};

use memory::Counts;
use memory_messages::free_places;
use memory_records::counters::store_counts;
use memory_regions::{Bytes, COPIES_AT, HEADS_AT, QUEUE_AT, SLOTS_AT, WORKING_AT, Words};

// The regions that are 0 in a new cluster.
fn zero_heads(words: &mut Words)
    ensures { new_regions words ≡ with_heads (old_regions words) (replicate 112 0) }
{
    words[HEADS_AT..SLOTS_AT].fill(0);
}

fn zero_slots(words: &mut Words)
    ensures { new_regions words ≡ with_slots (old_regions words) (replicate 1792 0) }
{
    words[SLOTS_AT..QUEUE_AT].fill(0);
}

fn zero_copies(bytes: &mut Bytes)
    ensures { new_contents bytes ≡ with_copies (old_contents bytes) (replicate 7168 0) }
{
    bytes[COPIES_AT..WORKING_AT].fill(0);
}

fn fresh_counts(servers: u32, buckets: u32) -> Counts
    ensures { result ≡ fresh_counts servers buckets }
{
    Counts {
        servers,
        buckets,
        messages: 0,
        lines: 0,
        calls: 0,
    }
}

// A cluster of so many servers and buckets.
pub fn create(words: &mut Words, bytes: &mut Bytes, servers: u32, buckets: u32)
    ensures { new_memory words bytes ≡ fresh_memory (old_memory words bytes) servers buckets }
{
    zero_heads(words);
    zero_slots(words);
    free_places(words);
    store_counts(words, fresh_counts(servers, buckets));
    zero_copies(bytes);
}
