// The parts that moves are made of.
ghost use Rattle.std.specs.Prelude.{◌≡◌};
ghost use Rattle.rounds.specs.Rounds.{no_version};
ghost use Rattle.moves.specs.Moves.{with_head, sending, quiet, ceasing};

use crate::{Filling, Keeping, Local, Move};
use rounds::opening::no_version;
use server::codes::{NO_MESSAGE, NO_RESULT};
use server::votes::ceased;
use server::{Answer, Head, Version};

// A step that sends a message under this version and does nothing else.
pub fn sending(kind: u32, version: Version, local: Local) -> Move
    ensures { result ≡ sending kind version local }
{
    let answer = Answer {
        call: 0,
        result: NO_RESULT,
        rounds: 0,
    };
    Move {
        local,
        sends: kind,
        written: version,
        fills: Filling::Stays,
        keeps: Keeping::Stays,
        answer,
        ceases: false,
        forgets: false,
    }
}

// A step that sends a message without a version.
pub fn plain(kind: u32, local: Local) -> Move
    ensures { result ≡ sending kind no_version local }
{
    sending(kind, no_version(), local)
}

// A step that changes the head and sends a message without a version.
pub fn headed(kind: u32, head: Head, local: Local) -> Move
    ensures { result ≡ sending kind no_version (with_head head local) }
{
    plain(kind, Local { head, ..local })
}

// A step that sends nothing.
pub fn quiet(local: Local) -> Move
    ensures { result ≡ quiet local }
{
    plain(NO_MESSAGE, local)
}

// The same step, with the end of leading and of all calls.
pub fn ceasing(next: Move) -> Move
    ensures { result ≡ ceasing next }
{
    let head = ceased(next.local.head);
    Move {
        local: Local { head, ..next.local },
        ceases: true,
        ..next
    }
}
