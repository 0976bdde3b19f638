// The cluster's memory in a few lent arrays of fixed size. Where each field of its records and messages lies is said in
// specs/Layout.antt; proofs/ has the laws of it.
#![tactic(auto)]

ghost use Rattle.std.specs.Prelude.{◌≡◌, ◌<◌};
ghost use Rattle.memory.specs.Layout.{server_room, bucket_room, slot_of};

use server::measures::{MAX_BUCKETS, MAX_MESSAGES, SERVERS};

pub mod offsets;

// How many buckets, slots and messages the arrays have room for: a server has a slot for each bucket.
pub const BUCKETS: usize = MAX_BUCKETS as usize;

pub const SLOTS: usize = SERVERS * BUCKETS;

pub const MESSAGES: usize = MAX_MESSAGES as usize;

// Words of the block of a head, of a slot, of a message's header and of an answer.
pub const HEAD_SIZE: usize = 16;

pub const SLOT_SIZE: usize = 32;

pub const HEADER_SIZE: usize = 8;

pub const ANSWER_SIZE: usize = 4;

// Bytes of the block of a content, and of the block of a call's key and values.
pub const CONTENT_SIZE: usize = 128;

pub const TEXT_SIZE: usize = 64;

// Where the order of the messages begins in their array: a word for each of them, behind their headers.
pub const ORDER_AT: usize = MESSAGES * HEADER_SIZE;

// Lengths of the arrays.
pub const COUNTS_LEN: usize = 8;

pub const HEADS_LEN: usize = SERVERS * HEAD_SIZE;

pub const SLOTS_LEN: usize = SLOTS * SLOT_SIZE;

pub const CONTENTS_LEN: usize = SLOTS * CONTENT_SIZE;

pub const TEXTS_LEN: usize = SLOTS * TEXT_SIZE;

pub const QUEUE_LEN: usize = MESSAGES * HEADER_SIZE + MESSAGES;

pub const PAYLOADS_LEN: usize = MESSAGES * CONTENT_SIZE;

pub const ANSWERS_LEN: usize = BUCKETS * ANSWER_SIZE;

// The lent arrays: the cluster's counts, heads of servers, slots, contents of copies and working contents, keys and values of open
// calls, headers of messages in flight with their order, their contents, answers of a line. Kinds, roles, marks and results lie in them
// as words and are no enums there: the arrays may hold any numbers, and every reading of them stands for something.
pub type CountWords = [u32; COUNTS_LEN];

pub type HeadWords = [u32; HEADS_LEN];

pub type SlotWords = [u32; SLOTS_LEN];

pub type CopyBytes = [u8; CONTENTS_LEN];

pub type WorkingBytes = [u8; CONTENTS_LEN];

pub type TextBytes = [u8; TEXTS_LEN];

pub type QueueWords = [u32; QUEUE_LEN];

pub type PayloadBytes = [u8; PAYLOADS_LEN];

pub type AnswerWords = [u32; ANSWERS_LEN];

// All of them, lent together.
#[derive(Drop)]
pub struct Arrays<'a> {
    pub counts: &'a mut CountWords,
    pub heads: &'a mut HeadWords,
    pub slots: &'a mut SlotWords,
    pub copies: &'a mut CopyBytes,
    pub working: &'a mut WorkingBytes,
    pub texts: &'a mut TextBytes,
    pub queue: &'a mut QueueWords,
    pub payloads: &'a mut PayloadBytes,
    pub answers: &'a mut AnswerWords,
}

// The words of a call without their bytes: kind, bucket, how long the key is, and for the expected value and the new value
// 0 where there is none, else one above its length.
#[derive(Clone, Copy)]
pub struct Numbers {
    pub kind: u32,
    pub bucket: u32,
    pub key: u32,
    pub expected: u32,
    pub value: u32,
}

// The cluster's measures and the numbers that count on.
#[derive(Clone, Copy)]
pub struct Counts {
    pub servers: u32,
    pub buckets: u32,
    pub messages: u32,
    pub lines: u32,
    pub calls: u32,
}

// The slot of a server and a bucket.
pub fn slot_of(server: usize, bucket: usize) -> usize
    requires { (server < server_room) × (bucket < bucket_room) }
    ensures { result ≡ slot_of server bucket }
{
    server * BUCKETS + bucket
}
