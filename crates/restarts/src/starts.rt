// A server that comes back.
ghost use Rattle.std.specs.Prelude.{◌≡◌};
ghost use Rattle.restarts.specs.Restarts.{restarted_move};

use moves::roles::ceased_move;
use moves::{Local, Move};
use server::Head;
use server::codes::RUNNING;

// What it stored is there; it leads nothing, and its rounds and calls are forgotten.
#[tactic(auto, unfolding(crate::specs::Restarts::restarted_move))]
pub fn restarted_move(local: Local) -> Move
    ensures { result ≡ restarted_move local }
{
    let head = Head {
        last: 0,
        stopped: RUNNING,
        ..local.head
    };
    Move {
        forgets: true,
        ..ceased_move(Local { head, ..local })
    }
}
