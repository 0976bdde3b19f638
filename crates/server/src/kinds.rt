// Kinds of messages: PLEASE_VOTE, REPLICA_WRITE and REPLICA_READ are what a candidate or leader asks the others, the rest are replies.
// Kinds of calls: GET to KEYS are those of open calls.
ghost use Rattle.std.specs.Prelude.{◌≡◌};
ghost use Rattle.server.specs.Views.{among, is_broadcast};

use crate::codes::{GET, KEYS, PLEASE_VOTE, REPLICA_READ, REPLICA_WRITE};

// What goes to all others.
#[tactic(auto, unfolding(crate::specs::Views::is_broadcast))]
pub fn is_broadcast(kind: u32) -> bool
    ensures { result ≡ is_broadcast kind }
{
    matches!(kind, PLEASE_VOTE | REPLICA_WRITE | REPLICA_READ)
}

// Whether a call of this kind is open: with a word that is no kind none is.
#[tactic(auto, unfolding(crate::specs::Views::among))]
pub fn is_open_call(kind: u32) -> bool
    ensures { result ≡ among 5 kind }
{
    matches!(kind, GET..=KEYS)
}
