// Slots in lent words, one block for each server and bucket (`slot_of` in crate `memory`). A slot holds the version of the copy,
// the open round, the open call and the numbers of the call's words.
ghost use Rattle.std.specs.Prelude.{◌≡◌, ◌*◌, ◌<◌};
ghost use Rattle.memory.specs.Rows.{row, put_row};
ghost use Rattle.memory.specs.Layout.{server_room, slot_room, slot_size, version_fields, version_stores, version_at, put_version, round_numbers, round_fields, round_at, put_round, call_fields, call_stores, call_at, put_call};
ghost use Rattle.memory.specs.Lent.{was, is};

use memory::offsets::{
    BEST_COUNTER, BEST_ELECTION, CALL_KIND, CALL_NUMBER, CALL_ROUNDS, CALL_SENT, MARK_0, MARK_1,
    MARK_2, MARK_3, MARK_4, MARK_5, MARK_6, ROUND_ELECTION, ROUND_NUMBER, ROUND_PURPOSE,
    VERSION_COUNTER, VERSION_ELECTION,
};
use memory::{SLOT_SIZE, SlotWords};
use server::measures::SERVERS;
use server::{Call, Round, Version};

// The version of the copy at this slot.
pub fn load_version(slots: &SlotWords, slot: usize) -> Version
    requires { slot < slot_room }
    ensures { result ≡ version_at slots.now slot }
{
    version_fields(slots, slot)
}

// The same, with the fields written out in the contract: so are those of each load and store below.
fn version_fields(slots: &SlotWords, slot: usize) -> Version
    requires { slot < slot_room }
    ensures { result ≡ version_fields slots.now slot }
{
    let base = slot * SLOT_SIZE;
    Version {
        election: slots[base + VERSION_ELECTION],
        counter: slots[base + VERSION_COUNTER],
    }
}

// The copy at this slot gets this version.
pub fn store_version(slots: &mut SlotWords, slot: usize, version: Version)
    requires { slot < slot_room }
    ensures { is slots ≡ put_version (was slots) slot version }
{
    version_stores(slots, slot, version);
}

fn version_stores(slots: &mut SlotWords, slot: usize, version: Version)
    requires { slot < slot_room }
    ensures { is slots ≡ version_stores (was slots) slot version }
{
    let base = slot * SLOT_SIZE;
    slots[base + VERSION_ELECTION] = version.election;
    slots[base + VERSION_COUNTER] = version.counter;
}

// The open round of this slot.
pub fn load_round(slots: &SlotWords, slot: usize) -> Round
    requires { slot < slot_room }
    ensures { result ≡ round_at slots.now slot }
{
    round_fields(slots, slot)
}

fn round_fields(slots: &SlotWords, slot: usize) -> Round
    requires { slot < slot_room }
    ensures { result ≡ round_fields slots.now slot }
{
    let base = slot * SLOT_SIZE;
    let best = Version {
        election: slots[base + BEST_ELECTION],
        counter: slots[base + BEST_COUNTER],
    };
    let marks = [
        slots[base + MARK_0],
        slots[base + MARK_1],
        slots[base + MARK_2],
        slots[base + MARK_3],
        slots[base + MARK_4],
        slots[base + MARK_5],
        slots[base + MARK_6],
    ];
    Round {
        purpose: slots[base + ROUND_PURPOSE],
        number: slots[base + ROUND_NUMBER],
        election: slots[base + ROUND_ELECTION],
        best,
        marks,
    }
}

// This slot gets this open round.
pub fn store_round(slots: &mut SlotWords, slot: usize, round: Round)
    requires { slot < slot_room }
    ensures { is slots ≡ put_round (was slots) slot round }
{
    let marks = round.marks;
    round_numbers(slots, slot, round);
    round_marks(slots, slot, marks);
}

fn round_numbers(slots: &mut SlotWords, slot: usize, round: Round)
    requires { slot < slot_room }
    ensures { is slots ≡ put_row (was slots) (slot * slot_size) 2 (round_numbers round) }
{
    let base = slot * SLOT_SIZE;
    let best = round.best;
    slots[base + ROUND_PURPOSE] = round.purpose;
    slots[base + ROUND_NUMBER] = round.number;
    slots[base + ROUND_ELECTION] = round.election;
    slots[base + BEST_ELECTION] = best.election;
    slots[base + BEST_COUNTER] = best.counter;
}

fn round_marks(slots: &mut SlotWords, slot: usize, marks: [u32; SERVERS])
    requires { slot < slot_room }
    ensures { is slots ≡ put_row (was slots) (slot * slot_size) 7 (row 0 0 server_room marks) }
{
    let base = slot * SLOT_SIZE;
    slots[base + MARK_0] = marks[0];
    slots[base + MARK_1] = marks[1];
    slots[base + MARK_2] = marks[2];
    slots[base + MARK_3] = marks[3];
    slots[base + MARK_4] = marks[4];
    slots[base + MARK_5] = marks[5];
    slots[base + MARK_6] = marks[6];
}

// The open call of this slot, without its words.
pub fn load_call(slots: &SlotWords, slot: usize) -> Call
    requires { slot < slot_room }
    ensures { result ≡ call_at slots.now slot }
{
    call_fields(slots, slot)
}

fn call_fields(slots: &SlotWords, slot: usize) -> Call
    requires { slot < slot_room }
    ensures { result ≡ call_fields slots.now slot }
{
    let base = slot * SLOT_SIZE;
    Call {
        kind: slots[base + CALL_KIND],
        number: slots[base + CALL_NUMBER],
        rounds: slots[base + CALL_ROUNDS],
        sent: slots[base + CALL_SENT],
    }
}

// This slot gets this open call, without its words.
pub fn store_call(slots: &mut SlotWords, slot: usize, call: Call)
    requires { slot < slot_room }
    ensures { is slots ≡ put_call (was slots) slot call }
{
    call_stores(slots, slot, call);
}

fn call_stores(slots: &mut SlotWords, slot: usize, call: Call)
    requires { slot < slot_room }
    ensures { is slots ≡ call_stores (was slots) slot call }
{
    let base = slot * SLOT_SIZE;
    slots[base + CALL_KIND] = call.kind;
    slots[base + CALL_NUMBER] = call.number;
    slots[base + CALL_ROUNDS] = call.rounds;
    slots[base + CALL_SENT] = call.sent;
}
