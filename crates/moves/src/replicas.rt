// What others ask of a server, as a voter and as a replica.
ghost use Rattle.std.specs.Prelude.{◌≡◌, true, false};
ghost use Rattle.model.specs.Leader.{acts};
ghost use Rattle.server.specs.Views.{role_in};
ghost use Rattle.moves.specs.Moves.{stepped_down, vote_move, read_request_move, write_request_move, request_move, voting_move};

use crate::parts::{ceasing, headed, plain, quiet, sending};
use crate::{Keeping, Local, Move};
use server::Message;
use server::codes::{
    ACK_READ, ACK_VOTE, ACK_WRITE, CANDIDATE, LEADING, NACK_READ, NACK_VOTE, NACK_WRITE,
    NO_MESSAGE, PLEASE_VOTE,
};
use server::numbers::above;
use server::votes::{after_vote, grants, may_accept, must_step_down, on_ack_vote, voting};

// Whether a role is that of a leader or a candidate.
#[tactic(auto, unfolding(model::specs::Leader::acts, server::specs::Views::role_in))]
pub fn role_acts(role: u32) -> bool
    ensures { result ≡ acts (role_in role) }
{
    matches!(role, CANDIDATE | LEADING)
}

// A leader or candidate whose vote rises above its own number is one no more. Most requests reach a follower, which is left
// alone, so that nobody walks over its slots.
#[tactic(auto, unfolding(crate::specs::Moves::stepped_down))]
fn stepped_down(next: Move) -> Move
    ensures { result ≡ stepped_down next }
{
    let head = next.local.head;
    if role_acts(head.role) && must_step_down(head) {
        ceasing(next)
    } else {
        next
    }
}

// PLEASEVOTE is answered by ACKVOTE or NACKVOTE.
#[tactic(auto, unfolding(crate::specs::Moves::vote_move, server::specs::Views::chosen))]
fn vote_move(message: Message, local: Local) -> Move
    ensures { result ≡ vote_move message local }
{
    let granted = grants(message.election, message.sender, local.head);
    let kind = if granted { ACK_VOTE } else { NACK_VOTE };
    let head = after_vote(message.election, message.sender, local.head);
    stepped_down(headed(kind, head, local))
}

// A read that is accepted reports the copy.
fn read_request_move(message: Message, local: Local) -> Move
    ensures { result ≡ read_request_move message local }
{
    let head = voting(message.election, message.sender, local.head);
    sending(ACK_READ, local.version, Local { head, ..local })
}

// A write that is accepted is stored only if its version is above the stored one.
#[tactic(auto, unfolding(rounds::specs::Rounds::pick_version))]
fn write_request_move(message: Message, local: Local) -> Move
    ensures { result ≡ write_request_move message local }
{
    let stores = above(message.version, local.version);
    let version = if stores {
        message.version
    } else {
        local.version
    };
    let head = voting(message.election, message.sender, local.head);
    let keeps = if stores {
        Keeping::Message
    } else {
        Keeping::Stays
    };
    let after = Local {
        head,
        version,
        ..local
    };
    Move {
        keeps,
        ..plain(ACK_WRITE, after)
    }
}

// A request that is accepted.
fn accepted_move(writes: bool, message: Message, local: Local) -> Move
    ensures { result ≡ elim writes [ true ↦ write_request_move message local | false ↦ read_request_move message local ] }
{
    if writes {
        write_request_move(message, local)
    } else {
        read_request_move(message, local)
    }
}

// A request under a number below the server's vote is refused.
#[tactic(auto, unfolding(crate::specs::Moves::request_move, server::specs::Views::chosen))]
pub fn request_move(writes: bool, message: Message, local: Local) -> Move
    ensures { result ≡ request_move writes message local }
{
    if may_accept(message.election, local.head) {
        stepped_down(accepted_move(writes, message, local))
    } else {
        plain(if writes { NACK_WRITE } else { NACK_READ }, local)
    }
}

// PLEASEVOTE is answered, ACKVOTE counts for a candidate, NACKVOTE is ignored.
#[tactic(auto, unfolding(crate::specs::Moves::voting_move))]
pub fn voting_move(servers: u32, kind: u32, message: Message, local: Local) -> Move
    ensures { result ≡ voting_move servers kind message local }
{
    match kind {
        PLEASE_VOTE => vote_move(message, local),
        ACK_VOTE => {
            let head = on_ack_vote(servers, message.sender, message.election, local.head);
            headed(NO_MESSAGE, head, local)
        }
        _ => quiet(local),
    }
}
