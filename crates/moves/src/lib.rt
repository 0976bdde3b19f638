// What one step of a server makes of its head and of the slot of one bucket, by value, and what it sends and answers.
// What each number stands for is said in specs/Reactions.antt.
#![tactic(auto)]

use server::{Answer, Call, Head, Round, Version};

pub mod handling;
pub mod leading;
pub mod nothing;
mod parts;
pub mod replicas;
mod replies;
pub mod roles;

// A server's head, and what stands in the slot of one bucket: the version of the copy, the open round and the open call.
#[derive(Clone, Copy)]
pub struct Local {
    pub head: Head,
    pub version: Version,
    pub round: Round,
    pub call: Call,
}

// What the working content of the slot becomes.
#[derive(Clone, Copy)]
pub enum Filling {
    Stays,
    // the content of the slot's copy
    Copy,
    // the new table of the call's effect
    Table,
    // the message's content
    Message,
}

// What the content of the slot's copy then becomes.
#[derive(Clone, Copy)]
pub enum Keeping {
    Stays,
    // the working content
    Working,
    // the message's content
    Message,
}

// What a step makes of it.
#[derive(Clone, Copy)]
pub struct Move {
    pub local: Local,
    // the kind of message that is sent, or NO_MESSAGE: a broadcast goes to all others, a reply to the sender of what it answers
    pub sends: u32,
    // the version that REPLICA_WRITE and ACK_READ carry
    pub written: Version,
    pub fills: Filling,
    pub keeps: Keeping,
    // the answer to the slot's call; with NO_RESULT there is none
    pub answer: Answer,
    // whether leading ends, and with it all open calls of the server
    pub ceases: bool,
    // with `ceases`: whether those calls are forgotten, with no answer
    pub forgets: bool,
}
