// The messages in flight: one may be removed, then those of the step are appended.
#![tactic(auto)]

ghost use Rattle.std.specs.Prelude.{◌≡◌, true, ◌≢◌, ◌<◌, ◌≤◌, ◌+◌, ◌-◌, eqb};
ghost use Rattle.server.specs.Views.{chosen};
ghost use Rattle.blocks.specs.Blocks.{block};
ghost use Rattle.memory.specs.Layout.{slot_room, message_room, content_size};
ghost use Rattle.memory.specs.Lent.{was, is, read_only};
ghost use Rattle.refusals.specs.Refusals.{send_count};
ghost use Rattle.views.specs.Queue.{without_message, message_to, sent_to, spread, broadcast_of, reply_of, sent};
ghost use Rattle.flight.specs.Flown.{Flown, old_flight};

use memory::{CopyBytes, PayloadBytes, QueueWords, WorkingBytes};
use messages::{append_message, remove_message};
use moves::Move;
use server::Message;
use server::codes::{NO_MESSAGE, PLEASE_VOTE};
use server::kinds::is_broadcast;

// The message with this index is removed.
pub fn remove(queue: &mut QueueWords, payloads: &PayloadBytes, count: usize, index: usize) -> usize
    requires { (index < count) × (count ≤ message_room) }
    ensures { Flown (without_message true index (old_flight queue (read_only payloads) count)) (is queue) payloads.now result }
{
    remove_message(queue, count, index);
    count - 1
}

// PLEASEVOTE carries bucket 0 and round 0.
fn unless_vote(kind: u32, number: u32) -> u32
    ensures { result ≡ chosen (eqb kind 1) 0 number }
{
    if kind == PLEASE_VOTE { 0 } else { number }
}

// What a step of server `me` sends to all others; the receiver is filled in for each.
pub fn broadcast_of(me: u32, at: u32, next: Move) -> Message
    ensures { result ≡ broadcast_of me at next }
{
    let local = next.local;
    let head = local.head;
    let kind = next.sends;
    let bucket = unless_vote(kind, at);
    let round = unless_vote(kind, head.last);
    let version = next.written;
    Message {
        kind,
        sender: me,
        receiver: me,
        bucket,
        election: head.number,
        round,
        version,
    }
}

// A reply carries bucket, election number and round of what it answers.
pub fn reply_of(me: u32, asked: Message, next: Move) -> Message
    ensures { result ≡ reply_of me asked next }
{
    let version = next.written;
    Message {
        kind: next.sends,
        sender: me,
        receiver: asked.sender,
        bucket: asked.bucket,
        election: asked.election,
        round: asked.round,
        version,
    }
}

// The message to this receiver.
pub fn message_to(message: Message, receiver: u32) -> Message
    ensures { result ≡ message_to message receiver }
{
    Message {
        receiver,
        ..message
    }
}

// A message goes to one server, with the working content of the slot, unless that server is its sender.
fn send_to(
    queue: &mut QueueWords,
    payloads: &mut PayloadBytes,
    working: &WorkingBytes,
    count: usize,
    message: Message,
    receiver: u32,
    slot: usize,
) -> usize
    requires { (slot < slot_room) × ((count ≤ message_room) × (receiver ≢ message.sender → count < message_room)) }
    ensures { Flown (sent_to (block content_size slot working.now) message receiver (old_flight queue payloads count)) (is queue) (is payloads) result }
{
    if receiver == message.sender {
        return count;
    }
    append_message(
        queue,
        payloads,
        count,
        message_to(message, receiver),
        working,
        slot,
    );
    count + 1
}

// A message goes to all servers without its sender.
fn send_all(
    queue: &mut QueueWords,
    payloads: &mut PayloadBytes,
    working: &WorkingBytes,
    count: usize,
    message: Message,
    servers: u32,
    slot: usize,
) -> usize
    requires { (slot < slot_room) × ((message.sender < servers) × (count + (servers - 1) ≤ message_room)) }
    ensures { Flown (spread (block content_size slot working.now) message servers (old_flight queue payloads count)) (is queue) (is payloads) result }
{
    let mut sent = count;
    for receiver in 0..servers {
        sent = send_to(queue, payloads, working, sent, message, receiver, slot);
    }
    sent
}

// What a step sends: a broadcast with the working content of the slot, or a reply with the content of its copy.
#[tactic(auto, using(crate::proofs::Sends::sends_nothing))]
pub fn send(
    queue: &mut QueueWords,
    payloads: &mut PayloadBytes,
    working: &WorkingBytes,
    copies: &CopyBytes,
    count: usize,
    servers: u32,
    me: u32,
    bucket: u32,
    slot: usize,
    asked: Message,
    next: Move,
) -> usize
    requires { (slot < slot_room) × ((me < servers) × (count + send_count servers next.sends ≤ message_room)) }
    ensures { Flown (sent servers me bucket slot asked next working.now copies.now (old_flight queue payloads count)) (is queue) (is payloads) result }
{
    if next.sends == NO_MESSAGE {
        return count;
    }
    if is_broadcast(next.sends) {
        return send_all(
            queue,
            payloads,
            working,
            count,
            broadcast_of(me, bucket, next),
            servers,
            slot,
        );
    }
    append_message(
        queue,
        payloads,
        count,
        reply_of(me, asked, next),
        copies,
        slot,
    );
    count + 1
}
