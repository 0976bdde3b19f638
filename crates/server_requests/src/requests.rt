// Requests: PLEASEVOTE, REPLICAWRITE and REPLICAREAD.
ghost use Rattle.std.specs.Prelude.{◌≡◌};
ghost use Rattle.server_requests.specs.Requests.{steps_down, left_answer, voted_answer, has_vote, vote_answer, write_answer, read_answer, answer_to, reply_message};

use crate::{Answered, Seat};
use moves::replicas::role_acts;
use rounds::opening::no_version;
use server::codes::{
    ACK_READ, ACK_VOTE, ACK_WRITE, NACK_READ, NACK_VOTE, NACK_WRITE, PLEASE_VOTE, REPLICA_WRITE,
};
use server::numbers::above;
use server::{Message, Version};

impl Seat {
    // Whether a leader or candidate is one no more where its vote becomes this number.
    #[tactic(auto, unfolding(crate::specs::Requests::steps_down))]
    fn steps_down(self, vote: u32) -> bool
        ensures { result ≡ steps_down self vote }
    {
        role_acts(self.role) && self.number < vote
    }

    // Vote, leader and copy stay.
    fn left_answer(self, kind: u32, ceases: bool) -> Answered
        ensures { result ≡ left_answer self kind ceases }
    {
        Answered {
            vote: self.vote,
            leader: self.leader,
            kind,
            ceases,
            stores: false,
        }
    }

    // The vote goes to the sender.
    fn voted_answer(self, message: Message, kind: u32, stores: bool) -> Answered
        ensures { result ≡ voted_answer self message kind stores }
    {
        Answered {
            vote: message.election,
            leader: message.sender,
            kind,
            ceases: self.steps_down(message.election),
            stores,
        }
    }

    // Whether the vote is the sender's already.
    #[tactic(auto, unfolding(crate::specs::Requests::has_vote))]
    fn has_vote(self, message: Message) -> bool
        ensures { result ≡ has_vote self message }
    {
        message.election == self.vote && message.sender == self.leader
    }

    // PLEASEVOTE: a vote under a higher number is given; one that is given already is acknowledged again.
    #[tactic(auto, unfolding(crate::specs::Requests::vote_answer, server::specs::Views::chosen))]
    fn vote_answer(self, message: Message) -> Answered
        ensures { result ≡ vote_answer self message }
    {
        if self.vote < message.election {
            self.voted_answer(message, ACK_VOTE, false)
        } else {
            let kind = if self.has_vote(message) {
                ACK_VOTE
            } else {
                NACK_VOTE
            };
            self.left_answer(kind, self.steps_down(self.vote))
        }
    }

    // REPLICAWRITE: the copy is stored only if its version is above that of the server's own.
    #[tactic(auto, unfolding(crate::specs::Requests::write_answer))]
    fn write_answer(self, message: Message, own: Version) -> Answered
        ensures { result ≡ write_answer self message own }
    {
        if message.election < self.vote {
            self.left_answer(NACK_WRITE, false)
        } else {
            self.voted_answer(message, ACK_WRITE, above(message.version, own))
        }
    }

    // REPLICAREAD.
    #[tactic(auto, unfolding(crate::specs::Requests::read_answer))]
    fn read_answer(self, message: Message) -> Answered
        ensures { result ≡ read_answer self message }
    {
        if message.election < self.vote {
            self.left_answer(NACK_READ, false)
        } else {
            self.voted_answer(message, ACK_READ, false)
        }
    }
}

// What a server makes of a request; `own` is the version of its copy. Any other kind is answered as a read: nobody asks for it.
#[tactic(auto, unfolding(crate::specs::Requests::answer_to))]
pub fn answer_to(seat: Seat, message: Message, own: Version) -> Answered
    ensures { result ≡ answer_to seat message own }
{
    match message.kind {
        PLEASE_VOTE => seat.vote_answer(message),
        REPLICA_WRITE => seat.write_answer(message, own),
        _ => seat.read_answer(message),
    }
}

// The reply of this kind goes to the sender, with the bucket, the election number and the round of what it answers; ACKREAD
// carries the version of the server's own copy, any other reply none.
#[tactic(auto, unfolding(rounds::specs::Rounds::pick_version))]
pub fn reply_to(me: u32, message: Message, kind: u32, own: Version) -> Message
    ensures { result ≡ reply_message me message kind own }
{
    let version = if kind == ACK_READ { own } else { no_version() };
    Message {
        kind,
        sender: me,
        receiver: message.sender,
        version,
        ..message
    }
}
