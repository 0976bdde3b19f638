// Replies to the round of a slot.
ghost use Rattle.std.specs.Prelude.{◌≡◌};
ghost use Rattle.server.specs.declared.Handling.TheVariants.{Reply};
ghost use Rattle.moves.specs.Moves.{fetching, counted_move, reply_move, handling_move, reads_by};

use crate::leading::closed_move;
use crate::parts::quiet;
use crate::roles::ceased_move;
use crate::{Filling, Local, Move};
use rounds::opening::no_version;
use rounds::replies::{closes, counted, fails, matches};
use server::codes::CHECK;
use server::{Counted, Message, Version};

// The same step, with the message's content as working content where it is the best one reported.
#[tactic(auto, unfolding(crate::specs::Moves::fetching))]
fn fetching(better: bool, next: Move) -> Move
    ensures { result ≡ fetching better next }
{
    if better {
        Move {
            fills: Filling::Message,
            ..next
        }
    } else {
        next
    }
}

// A round with a reply counted: it closes, fails or stays open.
#[tactic(auto, unfolding(crate::specs::Moves::counted_move))]
fn counted_move(servers: u32, me: u32, res: u32, after: Counted, local: Local) -> Move
    ensures { result ≡ counted_move servers me res after local }
{
    let round = after.round;
    let open = Local { round, ..local };
    if closes(servers, round) {
        fetching(after.better, closed_move(me, res, open))
    } else if fails(servers, round) {
        ceased_move(local)
    } else {
        fetching(after.better, quiet(open))
    }
}

// A reply that does not belong to the round of the slot changes nothing.
#[tactic(auto, unfolding(crate::specs::Moves::reply_move))]
fn reply_move(
    servers: u32,
    me: u32,
    res: u32,
    mark: u32,
    report: Version,
    message: Message,
    local: Local,
) -> Move
    ensures { result ≡ reply_move servers me res mark report message local }
{
    if matches(local.round, message.election, message.round) {
        let after = counted(servers, message.sender, mark, report, local.round);
        counted_move(servers, me, res, after, local)
    } else {
        quiet(local)
    }
}

// A reply by its mark, and whether it reports the version that it carries.
#[tactic(auto, unfolding(crate::specs::Moves::handling_move, rounds::specs::Rounds::pick_version))]
pub fn reported_move(
    servers: u32,
    me: u32,
    res: u32,
    mark: u32,
    reports: bool,
    message: Message,
    local: Local,
) -> Move
    ensures { result ≡ handling_move servers me res message local (Reply mark reports) }
{
    let report = if reports {
        message.version
    } else {
        no_version()
    };
    reply_move(servers, me, res, mark, report, message, local)
}

// Whether a reply closes the checking round of the slot.
#[tactic(auto, unfolding(crate::specs::Moves::reads_by, rounds::specs::Rounds::pick_version))]
pub fn closes_check(servers: u32, mark: u32, reports: bool, message: Message, local: Local) -> bool
    ensures { result ≡ reads_by servers message local (Reply mark reports) }
{
    let round = local.round;
    if round.purpose == CHECK && matches(round, message.election, message.round) {
        let report = if reports {
            message.version
        } else {
            no_version()
        };
        closes(
            servers,
            counted(servers, message.sender, mark, report, round).round,
        )
    } else {
        false
    }
}
