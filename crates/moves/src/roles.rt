// What script lines that name a server make of it.
ghost use Rattle.std.specs.Prelude.{◌≡◌};
ghost use Rattle.moves.specs.Moves.{elected_move, ceased_move, stopped_move};

use crate::parts::{ceasing, headed, quiet};
use crate::{Local, Move};
use server::Head;
use server::codes::{NO_MESSAGE, PLEASE_VOTE, STOPPED};
use server::votes::elected;

// An election: PLEASEVOTE is sent under the server's next number.
#[tactic(auto, unfolding(crate::specs::Moves::elected_move))]
pub fn elected_move(servers: u32, me: u32, local: Local) -> Move
    ensures { result ≡ elected_move servers me local }
{
    let asking = headed(PLEASE_VOTE, elected(servers, me, local.head), local);
    Move {
        ceases: true,
        ..asking
    }
}

// Leading ends.
pub fn ceased_move(local: Local) -> Move
    ensures { result ≡ ceased_move local }
{
    ceasing(quiet(local))
}

// The server is marked as stopped.
pub fn stopped_move(local: Local) -> Move
    ensures { result ≡ stopped_move local }
{
    let head = Head {
        stopped: STOPPED,
        ..local.head
    };
    headed(NO_MESSAGE, head, local)
}
