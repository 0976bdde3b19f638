// Messages that are handed over, judged by what they look at alone: a request at four numbers of the head and at the copy's
// version, a reply at the round. What each answer stands for is said in specs/Requests.antt and specs/Replies.antt.
#![tactic(auto)]

use server::Round;

pub mod replies;
pub mod requests;

// What a request looks at of a server's head.
#[derive(Clone, Copy)]
pub struct Seat {
    pub number: u32,
    pub vote: u32,
    pub leader: u32,
    pub role: u32,
}

// What a server makes of a request.
#[derive(Clone, Copy)]
pub struct Answered {
    // the vote and its leader from then on
    pub vote: u32,
    pub leader: u32,
    // the kind of the reply
    pub kind: u32,
    // whether the server ceases to lead or to stand, and with it all its open calls end
    pub ceases: bool,
    // whether the message's copy is stored over the server's own
    pub stores: bool,
}

// What comes of a reply: it is none to this round; the round stays open; it closes; it fails, and leading ends.
#[derive(Clone, Copy)]
pub enum Outcome {
    Unmatched,
    Waiting,
    Closed,
    Failed,
}

// What a reply makes of the round of a slot.
#[derive(Clone, Copy)]
pub struct Replied {
    // the round, with the reply counted where it belongs to it
    pub round: Round,
    // whether the reported copy is now the best one
    pub better: bool,
    pub outcome: Outcome,
}
