// A new cluster: all numbers 0, all copies empty and all places of messages free.
ghost use Rattle.std.specs.Prelude.{◌≡◌, ◌≤◌, length, replicate};
ghost use Rattle.blocks.specs.Order.{rising};
ghost use Rattle.memory.specs.Layout.{message_room, queue_length, fresh_places};
ghost use Rattle.memory.specs.Lent.{was, is};
ghost use Rattle.views.specs.Lent.{lent, SameArrays};
ghost use Rattle.runs.specs.Runs.{fresh_counts};
ghost use Rattle.machine.specs.Lent.{Creates};

use memory::{Arrays, CopyBytes, Counts, HeadWords, ORDER_AT, QueueWords, SlotWords};
use records::counters::store_counts;

fn fresh_counts(servers: u32, buckets: u32) -> Counts
    ensures { result ≡ fresh_counts servers buckets }
{
    Counts {
        servers,
        buckets,
        messages: 0,
        lines: 0,
        calls: 0,
    }
}

// Every word of the order names its own place.
fn number_words(order: &mut [u32])
    requires { length order.old ≤ message_room }
    ensures { is order ≡ rising 0 (length (was order)) }
{
    for (i, word) in order.iter_mut().enumerate() {
        *word = i as u32;
    }
}

// The order names every place.
fn free_places(queue: &mut QueueWords)
    ensures { is queue ≡ fresh_places (was queue) }
{
    number_words(&mut queue[ORDER_AT..]);
}

// No server, slot or copy holds anything.
fn clear(heads: &mut HeadWords, slots: &mut SlotWords, copies: &mut CopyBytes)
    ensures { (is heads ≡ replicate 112 0) × ((is slots ≡ replicate 1792 0) × (is copies ≡ replicate 7168 0)) }
{
    heads.fill(0);
    slots.fill(0);
    copies.fill(0);
}

// A cluster of so many servers and buckets.
pub fn create(arrays: &mut Arrays<'_>, servers: u32, buckets: u32)
    ensures same { SameArrays arrays }
    ensures creates { Creates (lent arrays) servers buckets }
{
    clear(arrays.heads, arrays.slots, arrays.copies);
    free_places(arrays.queue);
    store_counts(arrays.counts, fresh_counts(servers, buckets));
}
