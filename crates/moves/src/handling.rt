// The handling of a message, by its kind.
ghost use Rattle.std.specs.Prelude.{◌≡◌};
ghost use Rattle.moves.specs.Moves.{handled_move, reads_table};

use crate::parts::quiet;
use crate::replicas::{request_move, voting_move};
use crate::replies::{closes_check, reported_move};
use crate::{Local, Move};
use rounds::kinds::kind_of_message;
use server::{Handling, Message};

// A message whose kind is none of the nine changes nothing.
#[tactic(auto, unfolding(crate::specs::Moves::handled_move, crate::specs::Moves::handling_move))]
pub fn handled_move(servers: u32, me: u32, res: u32, message: Message, local: Local) -> Move
    ensures { result ≡ handled_move servers me res message local }
{
    match kind_of_message(message.kind) {
        Handling::Vote(kind) => voting_move(servers, kind, message, local),
        Handling::Request { writes } => request_move(writes, message, local),
        Handling::Reply { mark, reports } => reported_move(
            servers, me, res, mark, reports, message, local,
        ),
        Handling::Other => quiet(local),
    }
}

// Whether a message closes the checking round of the slot, so that the call's effect on the table is asked for.
#[tactic(auto, unfolding(crate::specs::Moves::reads_table, crate::specs::Moves::reads_by))]
pub fn reads_table(servers: u32, message: Message, local: Local) -> bool
    ensures { result ≡ reads_table servers message local }
{
    match kind_of_message(message.kind) {
        Handling::Reply { mark, reports } => closes_check(servers, mark, reports, message, local),
        Handling::Vote(_) | Handling::Request { .. } | Handling::Other => false,
    }
}
