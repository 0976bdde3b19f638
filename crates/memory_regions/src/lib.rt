// The cluster's memory in two lent arrays, words and bytes, each cut into regions: where each region begins, and how long the arrays are.
// The definitions of the same cuts are in specs/, the laws of stores and readings in a region in proofs/.
#![tactic(auto)]

use memory::{
    CONTENTS_LEN, COUNTS_LEN, HEADS_LEN, MESSAGES, PAYLOADS_LEN, QUEUE_LEN, SLOTS, SLOTS_LEN,
    TEXTS_LEN,
};

// The words: the cluster's counts, heads of servers, slots, and the queue, which is the headers of messages and their order.
pub const COUNTS_AT: usize = 0;

pub const HEADS_AT: usize = COUNTS_AT + COUNTS_LEN;

pub const SLOTS_AT: usize = HEADS_AT + HEADS_LEN;

pub const QUEUE_AT: usize = SLOTS_AT + SLOTS_LEN;

pub const WORDS_LEN: usize = QUEUE_AT + QUEUE_LEN;

pub type Words = [u32; WORDS_LEN];

// The bytes: contents of copies, working contents, contents of messages, and keys and values of open calls.
pub const COPIES_AT: usize = 0;

pub const WORKING_AT: usize = COPIES_AT + CONTENTS_LEN;

pub const PAYLOADS_AT: usize = WORKING_AT + CONTENTS_LEN;

pub const TEXTS_AT: usize = PAYLOADS_AT + PAYLOADS_LEN;

pub const BYTES_LEN: usize = TEXTS_AT + TEXTS_LEN;

pub type Bytes = [u8; BYTES_LEN];

// Contents have one numbering, by their blocks: where those of each region begin, and how many there are.
pub const FIRST_COPY: usize = 0;

pub const FIRST_WORKING: usize = FIRST_COPY + SLOTS;

pub const FIRST_PAYLOAD: usize = FIRST_WORKING + SLOTS;

pub const CONTENTS: usize = FIRST_PAYLOAD + MESSAGES;
