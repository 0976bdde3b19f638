// A server's head and one of its slots: stored together, and cleared when leading ends.
ghost use Rattle.std.specs.Prelude.{◌≡◌, ◌<◌, ◌≤◌};
ghost use Rattle.memory.specs.Layout.{server_room, bucket_room, slot_room};
ghost use Rattle.memory.specs.Lent.{was, is};
ghost use Rattle.views.specs.Changes.{is_idle, cleared_slot, cleared_slots};
ghost use Rattle.steps.specs.Stored.{Stored, put_slot, Settled};

use memory::{HeadWords, SlotWords, slot_of};
use moves::nothing::{no_call, no_round};
use moves::{Local, Move};
use records::heads::store_head;
use records::slots::{load_call, load_round, store_call, store_round, store_version};
use server::codes::{NO_CALL, NO_ROUND};
use server::{Call, Round, Version};

// This server gets the head, this slot the rest.
pub fn store_local(
    heads: &mut HeadWords,
    slots: &mut SlotWords,
    server: usize,
    slot: usize,
    local: Local,
)
    requires { (server < server_room) × (slot < slot_room) }
    ensures { Stored (was heads) (was slots) server slot local (is heads) (is slots) }
{
    store_head(heads, server, local.head);
    store_slot(slots, slot, local.version, local.round, local.call);
}

fn store_slot(slots: &mut SlotWords, slot: usize, version: Version, round: Round, call: Call)
    requires { slot < slot_room }
    ensures { is slots ≡ put_slot (was slots) slot version round call }
{
    store_version(slots, slot, version);
    store_round(slots, slot, round);
    store_call(slots, slot, call);
}

// Whether there is neither a round nor a call.
#[tactic(auto, unfolding(views::specs::Changes::is_idle))]
fn is_idle(round: Round, call: Call) -> bool
    ensures { result ≡ is_idle round call }
{
    round.purpose == NO_ROUND && call.kind == NO_CALL
}

// This slot has no round and no call any more.
#[tactic(auto, unfolding(views::specs::Changes::cleared_slot))]
fn clear_slot(slots: &mut SlotWords, slot: usize)
    requires { slot < slot_room }
    ensures { is slots ≡ cleared_slot (was slots) slot }
{
    let round = load_round(slots, slot);
    let call = load_call(slots, slot);
    if is_idle(round, call) {
        return;
    }
    store_round(slots, slot, no_round());
    store_call(slots, slot, no_call());
}

// The slots of this server have no round and no call any more.
pub fn clear_slots(slots: &mut SlotWords, server: usize, buckets: usize)
    requires { (server < server_room) × (buckets ≤ bucket_room) }
    ensures { is slots ≡ cleared_slots (was slots) server buckets }
{
    for bucket in 0..buckets {
        clear_slot(slots, slot_of(server, bucket));
    }
}

// A server's head and slots after a move.
#[tactic(auto, unfolding(views::specs::Changes::slots_after))]
pub fn settle(
    heads: &mut HeadWords,
    slots: &mut SlotWords,
    buckets: usize,
    server: usize,
    slot: usize,
    next: Move,
)
    requires { (server < server_room) × ((slot < slot_room) × (buckets ≤ bucket_room)) }
    ensures { Settled (was heads) (was slots) buckets server slot next (is heads) (is slots) }
{
    store_local(heads, slots, server, slot, next.local);
    if next.ceases {
        clear_slots(slots, server, buckets);
    }
}
