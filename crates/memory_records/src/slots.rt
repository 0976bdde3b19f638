// Slots, the third region of the words: a block for each server and bucket (`slot_of` in crate `memory`). A slot holds the version of
// the copy, the open round, the open call and the numbers of the call's words.
ghost use Rattle.std.specs.Prelude.{◌≡◌, ◌+◌, ◌*◌, ◌<◌};
ghost use Rattle.memory.specs.Rows.{row, put_row};
ghost use Rattle.memory.specs.Layout.{server_room, slot_room, slot_size, version_place, version_words, version_row, version_of, version_at, put_version, round_place, round_words, round_numbers, round_of, round_at, put_round, call_place, call_words, call_row, call_of, call_at, put_call};
ghost use Rattle.memory.specs.Lent.{was, is, read_only};
ghost use Rattle.memory_regions.specs.Regions.{slots_place, old_regions, new_regions, with_slots};

use memory::SLOT_SIZE;
use memory::offsets::{
    BEST_COUNTER, BEST_ELECTION, CALL_KIND, CALL_NUMBER, CALL_ROUNDS, CALL_SENT, MARK_0, MARK_1,
    MARK_2, MARK_3, MARK_4, MARK_5, MARK_6, ROUND_ELECTION, ROUND_NUMBER, ROUND_PURPOSE,
    VERSION_COUNTER, VERSION_ELECTION,
};
use memory_regions::{SLOTS_AT, Words};
use server::measures::SERVERS;
use server::{Call, Round, Version};

// The version of the copy at this slot.
pub fn load_version(words: &Words, slot: usize) -> Version
    requires { slot < slot_room }
    ensures { result ≡ version_at (old_regions (read_only words)).slots slot }
{
    version_fields(words, slot)
}

// The same, with the fields written out in the contract, as words of the whole array: so are those of each load and store below.
fn version_fields(words: &Words, slot: usize) -> Version
    requires { slot < slot_room }
    ensures { result ≡ version_of (row (slots_place + slot * slot_size) version_place version_words words.now) }
{
    let base = SLOTS_AT + slot * SLOT_SIZE;
    Version {
        election: words[base + VERSION_ELECTION],
        counter: words[base + VERSION_COUNTER],
    }
}

// The copy at this slot gets this version.
pub fn store_version(words: &mut Words, slot: usize, version: Version)
    requires { slot < slot_room }
    ensures { new_regions words ≡ with_slots (old_regions words) (put_version (old_regions words).slots slot version) }
{
    version_stores(words, slot, version);
}

fn version_stores(words: &mut Words, slot: usize, version: Version)
    requires { slot < slot_room }
    ensures { is words ≡ put_row (was words) (slots_place + slot * slot_size) version_place (version_row version) }
{
    let base = SLOTS_AT + slot * SLOT_SIZE;
    words[base + VERSION_ELECTION] = version.election;
    words[base + VERSION_COUNTER] = version.counter;
}

// The open round of this slot.
pub fn load_round(words: &Words, slot: usize) -> Round
    requires { slot < slot_room }
    ensures { result ≡ round_at (old_regions (read_only words)).slots slot }
{
    round_fields(words, slot)
}

fn round_fields(words: &Words, slot: usize) -> Round
    requires { slot < slot_room }
    ensures { result ≡ round_of (row (slots_place + slot * slot_size) round_place round_words words.now) }
{
    let base = SLOTS_AT + slot * SLOT_SIZE;
    let best = Version {
        election: words[base + BEST_ELECTION],
        counter: words[base + BEST_COUNTER],
    };
    let marks = [
        words[base + MARK_0],
        words[base + MARK_1],
        words[base + MARK_2],
        words[base + MARK_3],
        words[base + MARK_4],
        words[base + MARK_5],
        words[base + MARK_6],
    ];
    Round {
        purpose: words[base + ROUND_PURPOSE],
        number: words[base + ROUND_NUMBER],
        election: words[base + ROUND_ELECTION],
        best,
        marks,
    }
}

// This slot gets this open round.
pub fn store_round(words: &mut Words, slot: usize, round: Round)
    requires { slot < slot_room }
    ensures { new_regions words ≡ with_slots (old_regions words) (put_round (old_regions words).slots slot round) }
{
    let marks = round.marks;
    round_numbers(words, slot, round);
    round_marks(words, slot, marks);
}

fn round_numbers(words: &mut Words, slot: usize, round: Round)
    requires { slot < slot_room }
    ensures { is words ≡ put_row (was words) (slots_place + slot * slot_size) round_place (round_numbers round) }
{
    let base = SLOTS_AT + slot * SLOT_SIZE;
    let best = round.best;
    words[base + ROUND_PURPOSE] = round.purpose;
    words[base + ROUND_NUMBER] = round.number;
    words[base + ROUND_ELECTION] = round.election;
    words[base + BEST_ELECTION] = best.election;
    words[base + BEST_COUNTER] = best.counter;
}

fn round_marks(words: &mut Words, slot: usize, marks: [u32; SERVERS])
    requires { slot < slot_room }
    ensures { is words ≡ put_row (was words) (slots_place + slot * slot_size) 7 (row 0 0 server_room marks) }
{
    let base = SLOTS_AT + slot * SLOT_SIZE;
    words[base + MARK_0] = marks[0];
    words[base + MARK_1] = marks[1];
    words[base + MARK_2] = marks[2];
    words[base + MARK_3] = marks[3];
    words[base + MARK_4] = marks[4];
    words[base + MARK_5] = marks[5];
    words[base + MARK_6] = marks[6];
}

// The open call of this slot, without its words.
pub fn load_call(words: &Words, slot: usize) -> Call
    requires { slot < slot_room }
    ensures { result ≡ call_at (old_regions (read_only words)).slots slot }
{
    call_fields(words, slot)
}

fn call_fields(words: &Words, slot: usize) -> Call
    requires { slot < slot_room }
    ensures { result ≡ call_of (row (slots_place + slot * slot_size) call_place call_words words.now) }
{
    let base = SLOTS_AT + slot * SLOT_SIZE;
    Call {
        kind: words[base + CALL_KIND],
        number: words[base + CALL_NUMBER],
        rounds: words[base + CALL_ROUNDS],
        sent: words[base + CALL_SENT],
    }
}

// This slot gets this open call, without its words.
pub fn store_call(words: &mut Words, slot: usize, call: Call)
    requires { slot < slot_room }
    ensures { new_regions words ≡ with_slots (old_regions words) (put_call (old_regions words).slots slot call) }
{
    call_stores(words, slot, call);
}

fn call_stores(words: &mut Words, slot: usize, call: Call)
    requires { slot < slot_room }
    ensures { is words ≡ put_row (was words) (slots_place + slot * slot_size) call_place (call_row call) }
{
    let base = SLOTS_AT + slot * SLOT_SIZE;
    words[base + CALL_KIND] = call.kind;
    words[base + CALL_NUMBER] = call.number;
    words[base + CALL_ROUNDS] = call.rounds;
    words[base + CALL_SENT] = call.sent;
}
