// What a line would do, judged before anything changes: why it is refused, or the move to carry out.
// The rules are those of specs/Plans.antt.
#![tactic(auto)]

use moves::Move;
use server::{Effect, Message, Words};

pub mod calls;
pub mod cuts;
pub mod deliveries;
pub mod parts;
mod room;
pub mod servers;

// Where a move happens, what hands it over, and what it adds to the tally beside the messages sent.
#[derive(Clone, Copy)]
pub struct Step {
    pub server: u32,
    pub bucket: u32,
    // the index of the message that is handed over, and whether it leaves the list
    pub index: u32,
    pub removes: bool,
    pub asked: Message,
    pub copied: u32,
    pub delivered: u32,
    pub lost: u32,
    // the calls made so far, this one included
    pub calls: u32,
}

// A move that is carried out: where, and what the call does that it answers or writes.
#[derive(Clone, Copy)]
pub struct Carried {
    pub step: Step,
    pub next: Move,
    pub effect: Effect,
}

// What a line that is accepted does: its message is lost and nothing else happens; or a move is carried out, where a message that is cut counts
// as lost; or a call is taken with these words, and its first move carried out.
#[derive(Clone, Copy)]
pub enum Plan {
    Loses(Step),
    Moves(Carried),
    Takes(Words, Carried),
}
