// A server's head and one of its slots: stored together, and cleared when leading ends.
ghost use Rattle.std.specs.Prelude.{◌≡◌, ◌<◌, ◌≤◌};
ghost use Rattle.memory.specs.Layout.{server_room, bucket_room, slot_room, message_room};
ghost use Rattle.memory_regions.specs.Regions.{old_regions, new_regions, with_slots};
ghost use Rattle.views.specs.Arrays.{old_memory, new_memory};
ghost use Rattle.views.specs.Changes.{is_idle, cleared_slot, cleared_slots};
ghost use Rattle.machine_steps.specs.Moved.{put_slot, with_local, settled, moved_filled};

use crate::contents::keep_copy;
use memory::slot_of;
use memory_records::heads::store_head;
use memory_records::slots::{load_call, load_round, store_call, store_round, store_version};
use memory_regions::{Bytes, Words};
use moves::nothing::{no_call, no_round};
use moves::{Local, Move};
use server::codes::{NO_CALL, NO_ROUND};
use server::{Call, Round, Version};

// This server gets the head, this slot the rest.
pub fn store_local(words: &mut Words, server: usize, slot: usize, local: Local)
    requires { (server < server_room) × (slot < slot_room) }
    ensures { new_regions words ≡ with_local (old_regions words) server slot local }
{
    store_head(words, server, local.head);
    store_slot(words, slot, local.version, local.round, local.call);
}

fn store_slot(words: &mut Words, slot: usize, version: Version, round: Round, call: Call)
    requires { slot < slot_room }
    ensures { new_regions words ≡ with_slots (old_regions words) (put_slot (old_regions words).slots slot version round call) }
{
    store_version(words, slot, version);
    store_round(words, slot, round);
    store_call(words, slot, call);
}

// Whether there is neither a round nor a call.
#[tactic(auto, unfolding(views::specs::Changes::is_idle))]
fn is_idle(round: Round, call: Call) -> bool
    ensures { result ≡ is_idle round call }
{
    round.purpose == NO_ROUND && call.kind == NO_CALL
}

// This slot has no round and no call any more.
#[tactic(auto, unfolding(views::specs::Changes::cleared_slot))]
fn clear_slot(words: &mut Words, slot: usize)
    requires { slot < slot_room }
    ensures { new_regions words ≡ with_slots (old_regions words) (cleared_slot (old_regions words).slots slot) }
{
    let round = load_round(words, slot);
    let call = load_call(words, slot);
    if is_idle(round, call) {
        return;
    }
    store_round(words, slot, no_round());
    store_call(words, slot, no_call());
}

// The slots of this server have no round and no call any more.
pub fn clear_slots(words: &mut Words, server: usize, buckets: usize)
    requires { (server < server_room) × (buckets ≤ bucket_room) }
    ensures { new_regions words ≡ with_slots (old_regions words) (cleared_slots (old_regions words).slots server buckets) }
{
    for bucket in 0..buckets {
        clear_slot(words, slot_of(server, bucket));
    }
}

// A server's head and slots after a move.
#[tactic(auto, unfolding(views::specs::Changes::slots_after))]
fn settle(words: &mut Words, buckets: usize, server: usize, slot: usize, next: Move)
    requires { (server < server_room) × ((slot < slot_room) × (buckets ≤ bucket_room)) }
    ensures { new_regions words ≡ settled (old_regions words) buckets server slot next }
{
    store_local(words, server, slot, next.local);
    if next.ceases {
        clear_slots(words, server, buckets);
    }
}

// A move at this server and bucket, whose working content is filled; `place` is that of the message handed over.
pub fn move_server(
    words: &mut Words,
    bytes: &mut Bytes,
    buckets: usize,
    server: usize,
    bucket: usize,
    place: usize,
    next: Move,
)
    requires { (server < server_room) × ((bucket < bucket_room) × ((buckets ≤ bucket_room) × (place < message_room))) }
    ensures { new_memory words bytes ≡ moved_filled (old_memory words bytes) buckets server bucket place next }
{
    let slot = slot_of(server, bucket);
    keep_copy(bytes, slot, place, next.keeps);
    settle(words, buckets, server, slot, next);
}
