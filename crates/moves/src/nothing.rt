// What stands where there is no round or call.
ghost use Rattle.std.specs.Prelude.{◌≡◌};
ghost use Rattle.moves.specs.Moves.{no_round, no_call};

use rounds::opening::no_version;
use server::codes::{NO_CALL, NO_ROUND};
use server::measures::SERVERS;
use server::{Call, Round};

pub fn no_round() -> Round
    ensures { result ≡ no_round }
{
    Round {
        purpose: NO_ROUND,
        number: 0,
        election: 0,
        best: no_version(),
        marks: [0; SERVERS],
    }
}

pub fn no_call() -> Call
    ensures { result ≡ no_call }
{
    Call {
        kind: NO_CALL,
        number: 0,
        rounds: 0,
        sent: 0,
    }
}
