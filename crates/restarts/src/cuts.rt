// A server that is stopped in the middle of what a message makes it store: the vote first, then the bucket.
ghost use Rattle.std.specs.Prelude.{◌≡◌};
ghost use Rattle.restarts.specs.Restarts.{changes_vote, stores_vote, stores_bucket, stores_made, cuttable, votes_by, keeps_by, cut_head, cut_move};

use moves::roles::stopped_move;
use moves::{Keeping, Local, Move};
use server::codes::{PLEASE_VOTE, REPLICA_WRITE};
use server::kinds::is_broadcast;
use server::numbers::above;
use server::votes::{may_accept, voting};
use server::{Head, Message};

// Whether the vote for this leader under this number is not the one that stands there.
#[tactic(auto, unfolding(crate::specs::Restarts::changes_vote))]
fn changes_vote(election: u32, leader: u32, head: Head) -> bool
    ensures { result ≡ changes_vote election leader head }
{
    election != head.vote || leader != head.leader
}

// Whether a message of kind 1, 4 or 7 makes the vote's store.
#[tactic(auto, unfolding(crate::specs::Restarts::stores_vote))]
fn stores_vote(message: Message, head: Head) -> bool
    ensures { result ≡ stores_vote message head }
{
    if message.kind == PLEASE_VOTE {
        head.vote < message.election
    } else {
        may_accept(message.election, head) && changes_vote(message.election, message.sender, head)
    }
}

// Whether it makes the bucket's store.
#[tactic(auto, unfolding(crate::specs::Restarts::stores_bucket))]
fn stores_bucket(message: Message, local: Local) -> bool
    ensures { result ≡ stores_bucket message local }
{
    message.kind == REPLICA_WRITE
        && may_accept(message.election, local.head)
        && above(message.version, local.version)
}

// How many stores that makes.
#[tactic(auto, unfolding(crate::specs::Restarts::stores_made, server::specs::Views::chosen))]
fn stores_made(vote: bool, bucket: bool) -> u32
    ensures { result ≡ stores_made vote bucket }
{
    u32::from(vote) + u32::from(bucket)
}

// Whether the message can be cut after so many stores.
#[tactic(auto, unfolding(crate::specs::Restarts::cuttable))]
pub fn can_cut(stores: u32, message: Message, local: Local) -> bool
    ensures { result ≡ cuttable stores message local }
{
    let vote = stores_vote(message, local.head);
    let bucket = stores_bucket(message, local);
    is_broadcast(message.kind) && stores <= stores_made(vote, bucket)
}

// Whether the vote's store is among the first ones.
#[tactic(auto, unfolding(crate::specs::Restarts::votes_by))]
fn votes_by(stores: u32, message: Message, head: Head) -> bool
    ensures { result ≡ votes_by stores message head }
{
    stores_vote(message, head) && stores >= 1
}

// Whether the bucket's store is among the first ones: where both are made, it is the second.
#[tactic(auto, unfolding(crate::specs::Restarts::keeps_by))]
fn keeps_by(stores: u32, message: Message, local: Local) -> bool
    ensures { result ≡ keeps_by stores message local }
{
    let made = stores_made(stores_vote(message, local.head), true);
    stores_bucket(message, local) && stores >= made
}

// The head with the vote, if that is stored.
#[tactic(auto, unfolding(crate::specs::Restarts::cut_head))]
fn cut_head(stores: u32, message: Message, head: Head) -> Head
    ensures { result ≡ cut_head stores message head }
{
    if votes_by(stores, message, head) {
        voting(message.election, message.sender, head)
    } else {
        head
    }
}

// The server is stopped after the first stores, and replies nothing.
#[tactic(auto, unfolding(crate::specs::Restarts::cut_move, rounds::specs::Rounds::pick_version))]
pub fn cut_move(stores: u32, message: Message, local: Local) -> Move
    ensures { result ≡ cut_move stores message local }
{
    let kept = keeps_by(stores, message, local);
    let head = cut_head(stores, message, local.head);
    let version = if kept { message.version } else { local.version };
    let keeps = if kept {
        Keeping::Message
    } else {
        Keeping::Stays
    };
    let after = Local {
        head,
        version,
        ..local
    };
    Move {
        keeps,
        ..stopped_move(after)
    }
}
