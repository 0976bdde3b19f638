// The messages in flight in the two lent arrays: one may be removed, then those of the step are appended.
#![tactic(auto)]

ghost use Rattle.memory.specs.Lent.{read_only};
ghost use Rattle.std.specs.Prelude.{◌≡◌, true, ◌≢◌, ◌<◌, ◌≤◌, ◌+◌, ◌-◌};
ghost use Rattle.memory.specs.Layout.{message_room};
ghost use Rattle.memory_regions.specs.Contents.{first_payload, old_content};
ghost use Rattle.views.specs.Arrays.{old_memory};
ghost use Rattle.views.specs.Queue.{without_message, sent_to, spread};
ghost use Rattle.machine_flight.specs.Flown.{Flies, old_flight, Sendable, sent_by};

use flight::{broadcast_of, message_to, reply_of};
use memory::{Counts, slot_of};
use memory_messages::{append_message, remove_message};
use memory_regions::{Bytes, FIRST_COPY, FIRST_WORKING, Words};
use moves::Move;
use plans::Step;
use server::Message;
use server::codes::NO_MESSAGE;
use server::kinds::is_broadcast;

// The message with this index is removed.
pub fn remove(words: &mut Words, bytes: &Bytes, count: usize, index: usize) -> usize
    requires { (index < count) × (count ≤ message_room) }
    ensures { Flies words (read_only bytes) (without_message true index (old_flight words (read_only bytes) count)) result }
{
    remove_message(words, count, index);
    count - 1
}

// A message goes to one server, with content `content` of the bytes, unless that server is its sender.
fn send_to(
    words: &mut Words,
    bytes: &mut Bytes,
    count: usize,
    message: Message,
    receiver: u32,
    content: usize,
) -> usize
    requires { (content < first_payload) × ((count ≤ message_room) × (receiver ≢ message.sender → count < message_room)) }
    ensures { Flies words bytes (sent_to (old_content bytes content) message receiver (old_flight words bytes count)) result }
{
    if receiver == message.sender {
        return count;
    }
    append_message(words, bytes, count, message_to(message, receiver), content);
    count + 1
}

// A message goes to all servers without its sender; its content is none of a message, so that it stays as it is.
fn send_all(
    words: &mut Words,
    bytes: &mut Bytes,
    count: usize,
    message: Message,
    servers: u32,
    content: usize,
) -> usize
    requires { (content < first_payload) × ((message.sender < servers) × (count + (servers - 1) ≤ message_room)) }
    ensures { Flies words bytes (spread (old_content bytes content) message servers (old_flight words bytes count)) result }
{
    let mut sent = count;
    for receiver in 0..servers {
        sent = send_to(words, bytes, sent, message, receiver, content);
    }
    sent
}

// What a step sends: a broadcast with the working content of its slot, or a reply with the content of its copy.
pub fn send(
    words: &mut Words,
    bytes: &mut Bytes,
    count: usize,
    cluster: Counts,
    step: Step,
    next: Move,
) -> usize
    requires { Sendable count cluster step next }
    ensures { Flies words bytes (sent_by cluster step next (old_memory words bytes) count) result }
{
    if next.sends == NO_MESSAGE {
        return count;
    }
    let slot = slot_of(step.server as usize, step.bucket as usize);
    if is_broadcast(next.sends) {
        let message = broadcast_of(step.server, step.bucket, next);
        return send_all(
            words,
            bytes,
            count,
            message,
            cluster.servers,
            FIRST_WORKING + slot,
        );
    }
    let reply = reply_of(step.server, step.asked, next);
    append_message(words, bytes, count, reply, FIRST_COPY + slot);
    count + 1
}
