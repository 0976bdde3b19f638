// Replies to the round of a slot, each counted once.
ghost use Rattle.std.specs.Prelude.{◌≡◌};
ghost use Rattle.server_requests.specs.Replies.{outcome_of, replied_with, count_reply};

use crate::{Outcome, Replied};
use rounds::opening::no_version;
use rounds::replies::{closes, counted, fails, matches};
use server::{Counted, Message, Round};

// What comes of a round that a reply was counted in.
#[tactic(auto, unfolding(crate::specs::Replies::outcome_of))]
fn outcome_of(servers: u32, round: Round) -> Outcome
    ensures { result ≡ outcome_of servers round }
{
    if closes(servers, round) {
        Outcome::Closed
    } else if fails(servers, round) {
        Outcome::Failed
    } else {
        Outcome::Waiting
    }
}

// The round with the reply counted, and what comes of it.
fn replied_with(servers: u32, after: Counted) -> Replied
    ensures { result ≡ replied_with servers after }
{
    Replied {
        round: after.round,
        better: after.better,
        outcome: outcome_of(servers, after.round),
    }
}

// A reply with this mark, by the round alone; `reports`: whether the version that it carries is that of a copy.
#[tactic(auto, unfolding(crate::specs::Replies::count_reply, rounds::specs::Rounds::pick_version))]
pub fn count_reply(
    servers: u32,
    message: Message,
    mark: u32,
    reports: bool,
    round: Round,
) -> Replied
    ensures { result ≡ count_reply servers message mark reports round }
{
    if matches(round, message.election, message.round) {
        let report = if reports {
            message.version
        } else {
            no_version()
        };
        replied_with(
            servers,
            counted(servers, message.sender, mark, report, round),
        )
    } else {
        Replied {
            round,
            better: false,
            outcome: Outcome::Unmatched,
        }
    }
}
