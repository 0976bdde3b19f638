// The messages in flight, at most 64: their headers in lent words, a block for each, and their contents in lent bytes likewise.
// A message stays at its place. The words behind the headers list the places, in the order in which the messages were sent.
#![tactic(auto)]

ghost use Rattle.std.specs.Prelude.{◌≡◌, ◌+◌, ◌*◌, ◌<◌, ◌≤◌, length};
ghost use Rattle.blocks.specs.Blocks.{block};
ghost use Rattle.memory.specs.Layout.{message_room, content_size, place_field, place_at, without_place, message_fields, message_stores, header_at, message_at, put_header};
ghost use Rattle.memory.specs.Lent.{was, is};
ghost use Rattle.messages.specs.Messages.{Appended};

use blocks::rotate_words;
use memory::offsets::{
    MESSAGE_BUCKET, MESSAGE_ELECTION, MESSAGE_KIND, MESSAGE_RECEIVER, MESSAGE_ROUND,
    MESSAGE_SENDER, WRITTEN_COUNTER, WRITTEN_ELECTION,
};
use memory::{CONTENT_SIZE, HEADER_SIZE, MESSAGES, ORDER_AT, PayloadBytes, QueueWords};
use server::{Message, Version};

pub mod contents;

// The place of the message with this index: every number in the order names one.
pub fn place_of(queue: &QueueWords, index: usize) -> usize
    requires { index < message_room }
    ensures { (result ≡ place_at queue.now index) × (result < message_room) }
{
    place_field(queue, index)
}

// The same, with the word written out in the contract.
fn place_field(queue: &QueueWords, index: usize) -> usize
    requires { index < message_room }
    ensures { result ≡ place_field queue.now index }
{
    queue[ORDER_AT + index] as usize % MESSAGES
}

// The header of the message with this index.
pub fn load_message(queue: &QueueWords, index: usize) -> Message
    requires { index < message_room }
    ensures { result ≡ message_at queue.now index }
{
    let place = place_of(queue, index);
    load_header(queue, place)
}

// The header at this place.
fn load_header(queue: &QueueWords, place: usize) -> Message
    requires { place < message_room }
    ensures { result ≡ header_at queue.now place }
{
    message_fields(queue, place)
}

// The same, with the fields written out in the contract.
fn message_fields(queue: &QueueWords, place: usize) -> Message
    requires { place < message_room }
    ensures { result ≡ message_fields queue.now place }
{
    let base = place * HEADER_SIZE;
    let version = Version {
        election: queue[base + WRITTEN_ELECTION],
        counter: queue[base + WRITTEN_COUNTER],
    };
    Message {
        kind: queue[base + MESSAGE_KIND],
        sender: queue[base + MESSAGE_SENDER],
        receiver: queue[base + MESSAGE_RECEIVER],
        bucket: queue[base + MESSAGE_BUCKET],
        election: queue[base + MESSAGE_ELECTION],
        round: queue[base + MESSAGE_ROUND],
        version,
    }
}

// The header at this place is replaced.
fn store_header(queue: &mut QueueWords, place: usize, message: Message)
    requires { place < message_room }
    ensures { is queue ≡ put_header (was queue) place message }
{
    message_stores(queue, place, message);
}

fn message_stores(queue: &mut QueueWords, place: usize, message: Message)
    requires { place < message_room }
    ensures { is queue ≡ message_stores (was queue) place message }
{
    let base = place * HEADER_SIZE;
    let version = message.version;
    queue[base + MESSAGE_KIND] = message.kind;
    queue[base + MESSAGE_SENDER] = message.sender;
    queue[base + MESSAGE_RECEIVER] = message.receiver;
    queue[base + MESSAGE_BUCKET] = message.bucket;
    queue[base + MESSAGE_ELECTION] = message.election;
    queue[base + MESSAGE_ROUND] = message.round;
    queue[base + WRITTEN_ELECTION] = version.election;
    queue[base + WRITTEN_COUNTER] = version.counter;
}

// A message is appended at the first free place, with one content of the array `from`.
pub fn append_message(
    queue: &mut QueueWords,
    payloads: &mut PayloadBytes,
    count: usize,
    message: Message,
    from: &[u8],
    content: usize,
)
    requires { (count < message_room) × ((content + 1) * content_size ≤ length from.now) }
    ensures { Appended (was queue) (was payloads) count message (block content_size content from.now) (is queue) (is payloads) }
{
    let place = place_of(queue, count);
    store_header(queue, place, message);
    blocks::copy_block_bytes(payloads, CONTENT_SIZE, place, from, content);
}

// The message with this index is removed: its place is the first free one then.
pub fn remove_message(queue: &mut QueueWords, count: usize, index: usize)
    requires { (index < count) × (count ≤ message_room) }
    ensures { is queue ≡ without_place count index (was queue) }
{
    rotate_words(&mut queue[ORDER_AT..], count, index);
}
