// The messages in flight in two lent arrays: their headers and their order in the last region of the words, their contents among
// those of the bytes. A message stays at its place; the order lists the places, in the order in which the messages were sent.
#![tactic(auto)]

ghost use Rattle.std.specs.Prelude.{◌≡◌, ◌+◌, ◌*◌, ◌%◌, ◌<◌, ◌≤◌, length, get_or};
ghost use Rattle.blocks.specs.Order.{rising};
ghost use Rattle.memory.specs.Rows.{row, put_row};
ghost use Rattle.memory.specs.Layout.{message_room, message_size, order_place, place_at, without_place, fresh_places, message_row, message_of, header_at, message_at, put_header};
ghost use Rattle.memory.specs.Lent.{was, is, read_only};
ghost use Rattle.memory_regions.specs.Regions.{queue_place, old_regions, new_regions, with_queue};
ghost use Rattle.memory_regions.specs.Contents.{content_room, old_content};
ghost use Rattle.memory_messages.specs.Appended.{AppendsHeader, Appends};

use blocks::rotate_words;
use memory::offsets::{
    MESSAGE_BUCKET, MESSAGE_ELECTION, MESSAGE_KIND, MESSAGE_RECEIVER, MESSAGE_ROUND,
    MESSAGE_SENDER, WRITTEN_COUNTER, WRITTEN_ELECTION,
};
use memory::{HEADER_SIZE, MESSAGES, ORDER_AT};
use memory_contents::payload_from_content;
use memory_regions::{Bytes, QUEUE_AT, Words};
use server::{Message, Version};

// The place of the message with this index: every number in the order names one.
pub fn place_of(words: &Words, index: usize) -> usize
    requires { index < message_room }
    ensures { (result ≡ place_at (old_regions (read_only words)).queue index) × (result < message_room) }
{
    place_field(words, index)
}

// The same, with the word written out in the contract, as one of the whole array.
fn place_field(words: &Words, index: usize) -> usize
    requires { index < message_room }
    ensures { result ≡ get_or words.now (queue_place + (order_place + index)) 0 % message_room }
{
    words[QUEUE_AT + (ORDER_AT + index)] as usize % MESSAGES
}

// The header of the message with this index.
pub fn load_message(words: &Words, index: usize) -> Message
    requires { index < message_room }
    ensures { result ≡ message_at (old_regions (read_only words)).queue index }
{
    let place = place_of(words, index);
    load_header(words, place)
}

// The header at this place.
fn load_header(words: &Words, place: usize) -> Message
    requires { place < message_room }
    ensures { result ≡ header_at (old_regions (read_only words)).queue place }
{
    message_fields(words, place)
}

// The same, with the fields written out in the contract, as words of the whole array.
fn message_fields(words: &Words, place: usize) -> Message
    requires { place < message_room }
    ensures { result ≡ message_of (row (queue_place + place * message_size) 0 message_size words.now) }
{
    let base = QUEUE_AT + place * HEADER_SIZE;
    let version = Version {
        election: words[base + WRITTEN_ELECTION],
        counter: words[base + WRITTEN_COUNTER],
    };
    Message {
        kind: words[base + MESSAGE_KIND],
        sender: words[base + MESSAGE_SENDER],
        receiver: words[base + MESSAGE_RECEIVER],
        bucket: words[base + MESSAGE_BUCKET],
        election: words[base + MESSAGE_ELECTION],
        round: words[base + MESSAGE_ROUND],
        version,
    }
}

// The header at this place is replaced.
fn store_header(words: &mut Words, place: usize, message: Message)
    requires { place < message_room }
    ensures { new_regions words ≡ with_queue (old_regions words) (put_header (old_regions words).queue place message) }
{
    message_stores(words, place, message);
}

fn message_stores(words: &mut Words, place: usize, message: Message)
    requires { place < message_room }
    ensures { is words ≡ put_row (was words) (queue_place + place * message_size) 0 (message_row message) }
{
    let base = QUEUE_AT + place * HEADER_SIZE;
    let version = message.version;
    words[base + MESSAGE_KIND] = message.kind;
    words[base + MESSAGE_SENDER] = message.sender;
    words[base + MESSAGE_RECEIVER] = message.receiver;
    words[base + MESSAGE_BUCKET] = message.bucket;
    words[base + MESSAGE_ELECTION] = message.election;
    words[base + MESSAGE_ROUND] = message.round;
    words[base + WRITTEN_ELECTION] = version.election;
    words[base + WRITTEN_COUNTER] = version.counter;
}

// A header is stored at the first free place, which is the answer.
fn append_header(words: &mut Words, count: usize, message: Message) -> usize
    requires { count < message_room }
    ensures { AppendsHeader words count message result }
{
    let place = place_of(words, count);
    store_header(words, place, message);
    place
}

// A message is appended at the first free place, with content `content` of the bytes, a number of a block of the whole array.
pub fn append_message(
    words: &mut Words,
    bytes: &mut Bytes,
    count: usize,
    message: Message,
    content: usize,
)
    requires { (count < message_room) × (content < content_room) }
    ensures { Appends words bytes count message (old_content bytes content) }
{
    let place = append_header(words, count, message);
    payload_from_content(bytes, place, content);
}

// The message with this index is removed: its place is the first free one then.
pub fn remove_message(words: &mut Words, count: usize, index: usize)
    requires { (index < count) × (count ≤ message_room) }
    ensures { new_regions words ≡ with_queue (old_regions words) (without_place count index (old_regions words).queue) }
{
    rotate_words(&mut words[QUEUE_AT + ORDER_AT..], count, index);
}

// All places are free, in their own order.
pub fn free_places(words: &mut Words)
    ensures { new_regions words ≡ with_queue (old_regions words) (fresh_places (old_regions words).queue) }
{
    number_words(&mut words[QUEUE_AT + ORDER_AT..]);
}

// Every word is its own index.
fn number_words(order: &mut [u32])
    requires { length order.old ≤ message_room }
    ensures { is order ≡ rising 0 (length (was order)) }
{
    for (i, word) in order.iter_mut().enumerate() {
        *word = i as u32;
    }
}
