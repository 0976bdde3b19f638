// The rules of one server on small structs by value. What each number stands for is said in specs/Views.antt.
#![tactic(auto)]

use crate::measures::SERVERS;
use entries::{Decoded, Key, Value};

pub mod codes;
pub mod kinds;
pub mod measures;
pub mod numbers;
pub mod votes;

// A version: the election number decides first, then the counter.
#[derive(Clone, Copy, PartialEq, Eq, PartialOrd, Ord)]
pub struct Version {
    pub election: u32,
    pub counter: u32,
}

// A server without its copies, rounds and calls. Stored: number, vote, leader. Not stored: role, last (the number of the last round), votes.
// Votes, and the marks of a round, are words, as the memory keeps them: a load or a store converts nothing.
#[derive(Clone, Copy)]
pub struct Head {
    pub number: u32,
    pub vote: u32,
    pub leader: u32,
    pub role: u32,
    pub last: u32,
    pub stopped: u32,
    pub votes: [u32; SERVERS],
}

// An open round: one mark for each server beside its numbers. Open with a purpose from RECOVERY_READ to OWN_WRITE; with any
// other word, as NO_ROUND, none is. Seven marks by value are prescribed (docs/DECISIONS.md, Forms of code).
#[derive(Clone, Copy)]
pub struct Round {
    pub purpose: u32,
    pub number: u32,
    pub election: u32,
    pub best: Version,
    pub marks: [u32; SERVERS],
}

// A round with a reply counted, and whether the reported copy is now the best one.
#[derive(Clone, Copy)]
pub struct Counted {
    pub round: Round,
    pub better: bool,
}

// An open call beside its words. Open with a kind from GET to KEYS; with any other word, as NO_CALL, none is.
#[derive(Clone, Copy)]
pub struct Call {
    pub kind: u32,
    pub number: u32,
    pub rounds: u32,
    pub sent: u32,
}

// The words of a call: kinds GET, SET, SETIF, DEL and KEYS.
#[derive(Clone, Copy)]
pub struct Words {
    pub kind: u32,
    pub bucket: u32,
    pub key: Key,
    pub expected: Option<Value>,
    pub value: Option<Value>,
}

// An answer without its data.
#[derive(Clone, Copy)]
pub struct Answer {
    pub call: u32,
    pub result: u32,
    pub rounds: u32,
}

// What is left to do once the table is read: with NO_RESULT the table is to be written, otherwise the call is answered. The
// value counts with VALUE; with ABSENT there is none. It is handed on for every line, so its arrays stand first and no flag or
// tag goes with the value (docs/DECISIONS.md, Fields by size).
#[derive(Clone, Copy)]
pub struct Effect {
    pub value: Value,
    pub table: Decoded,
    pub result: u32,
}

// A message without its content.
#[derive(Clone, Copy)]
pub struct Message {
    pub kind: u32,
    pub sender: u32,
    pub receiver: u32,
    pub bucket: u32,
    pub election: u32,
    pub round: u32,
    pub version: Version,
}

// How a server handles a message.
#[derive(Clone, Copy)]
pub enum Handling {
    // a vote message: PLEASE_VOTE, ACK_VOTE or NACK_VOTE
    Vote(u32),
    // REPLICAWRITE or REPLICAREAD
    Request { writes: bool },
    // a reply to a round: its mark, and whether it reports a copy
    Reply { mark: u32, reports: bool },
    // none of the nine kinds
    Other,
}
