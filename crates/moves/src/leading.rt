// The rounds of a call, from its first to its answer.
ghost use Rattle.std.specs.Prelude.{◌≡◌, eqb};
ghost use Rattle.rounds.specs.Rounds.{pick_version, new_round_of, opened_head};
ghost use Rattle.open_calls.specs.Calls.{one_more_of};
ghost use Rattle.moves.specs.Moves.{local_of, reading_move, writing_move, finished_move, own_write_move, after_read_move, recovery_move, closed_move, started_move, recovered_alone, read_alone, ready_alone, alone_move, begun_move, may_write, needs_effect};

use crate::nothing::{no_call, no_round};
use crate::parts::{plain, quiet, sending};
use crate::{Filling, Keeping, Local, Move};
use open_calls::{next_version, one_more, recovered};
use rounds::opening::{new_round, opened};
use server::codes::{
    CHECK, DEL, DONE, NO_RESULT, OWN_WRITE, RECOVERY_READ, RECOVERY_WRITE, REPLICA_READ,
    REPLICA_WRITE, SET,
};
use server::numbers::above;
use server::{Answer, Call, Version};

// What a broadcast leaves of its sender, whose copy is then of this version; `own` where it is the call's own write.
fn after_broadcast(me: u32, purpose: u32, own: bool, version: Version, local: Local) -> Local
    ensures { result ≡ local_of (opened_head me local.head) version (new_round_of me purpose local.head local.version) (one_more_of own local.call) }
{
    let head = opened(me, local.head);
    let round = new_round(me, purpose, local.head, local.version);
    let call = one_more(own, local.call);
    Local {
        head,
        version,
        round,
        call,
    }
}

// A round that reads: a recovery read works on the sender's own content at first.
#[tactic(auto, unfolding(crate::specs::Moves::reading_move))]
fn reading_move(me: u32, purpose: u32, local: Local) -> Move
    ensures { result ≡ reading_move me purpose local }
{
    let after = after_broadcast(me, purpose, false, local.version, local);
    let fills = if purpose == RECOVERY_READ {
        Filling::Copy
    } else {
        Filling::Stays
    };
    Move {
        fills,
        ..plain(REPLICA_READ, after)
    }
}

// What a write leaves of its sender, whose own copy takes the written version or not.
#[tactic(auto, unfolding(rounds::specs::Rounds::pick_version))]
fn after_write(me: u32, purpose: u32, stores: bool, written: Version, local: Local) -> Local
    ensures { result ≡ local_of (opened_head me local.head) (pick_version stores written local.version) (new_round_of me purpose local.head local.version) (one_more_of (eqb purpose 4) local.call) }
{
    let version = if stores { written } else { local.version };
    after_broadcast(me, purpose, purpose == OWN_WRITE, version, local)
}

// A round that writes the working content under this version; a call's own write works on its new table.
#[tactic(auto, unfolding(crate::specs::Moves::writing_move))]
fn writing_move(me: u32, purpose: u32, version: Version, local: Local) -> Move
    ensures { result ≡ writing_move me purpose version local }
{
    let stores = above(version, local.version);
    let after = after_write(me, purpose, stores, version, local);
    let fills = if purpose == OWN_WRITE {
        Filling::Table
    } else {
        Filling::Stays
    };
    let keeps = if stores {
        Keeping::Working
    } else {
        Keeping::Stays
    };
    Move {
        fills,
        keeps,
        ..sending(REPLICA_WRITE, version, after)
    }
}

// The call ends with a result.
#[tactic(auto, unfolding(crate::specs::Moves::finished_move))]
fn finished_move(res: u32, local: Local) -> Move
    ensures { result ≡ finished_move res local }
{
    let answer = Answer {
        call: local.call.number,
        result: res,
        rounds: local.call.rounds,
    };
    let after = Local {
        round: no_round(),
        call: no_call(),
        ..local
    };
    Move {
        answer,
        ..quiet(after)
    }
}

// The call's own write, under the next version.
fn own_write_move(me: u32, local: Local) -> Move
    ensures { result ≡ own_write_move me local }
{
    let next = next_version(local.head.number, local.version);
    writing_move(me, OWN_WRITE, next, local)
}

// What follows the checking round: a new table is written, or the call is answered.
#[tactic(auto, unfolding(crate::specs::Moves::after_read_move))]
fn after_read_move(me: u32, res: u32, local: Local) -> Move
    ensures { result ≡ after_read_move me res local }
{
    if res == NO_RESULT {
        own_write_move(me, local)
    } else {
        finished_move(res, local)
    }
}

// What a recovery read found is written under the leader's number.
fn recovery_move(me: u32, local: Local) -> Move
    ensures { result ≡ recovery_move me local }
{
    let version = Version {
        election: local.head.number,
        counter: 1,
    };
    writing_move(me, RECOVERY_WRITE, version, local)
}

// What follows the round of the slot, once it closed.
#[tactic(auto, unfolding(crate::specs::Moves::closed_move))]
pub fn closed_move(me: u32, res: u32, local: Local) -> Move
    ensures { result ≡ closed_move me res local }
{
    match local.round.purpose {
        RECOVERY_READ => recovery_move(me, local),
        RECOVERY_WRITE => reading_move(me, CHECK, local),
        CHECK => after_read_move(me, res, local),
        _ => finished_move(DONE, local),
    }
}

// The first round of a call among several servers: a copy that is not recovered is recovered first; on one that is, a new
// table is written at once, and what is to be answered is checked first.
#[tactic(auto, unfolding(crate::specs::Moves::started_move))]
fn started_move(me: u32, res: u32, local: Local) -> Move
    ensures { result ≡ started_move me res local }
{
    if !recovered(local.head, local.version) {
        reading_move(me, RECOVERY_READ, local)
    } else if res == NO_RESULT {
        own_write_move(me, local)
    } else {
        reading_move(me, CHECK, local)
    }
}

// A server alone recovers its copy at once.
#[tactic(auto, unfolding(crate::specs::Moves::recovered_alone))]
fn recovered_alone(me: u32, local: Local) -> Local
    ensures { result ≡ recovered_alone me local }
{
    if recovered(local.head, local.version) {
        local
    } else {
        recovery_move(me, reading_move(me, RECOVERY_READ, local).local).local
    }
}

// A server alone reads at once.
fn read_alone(me: u32, local: Local) -> Local
    ensures { result ≡ read_alone me local }
{
    reading_move(me, CHECK, recovered_alone(me, local)).local
}

// What a server alone does before its own write: nothing where its copy is recovered, otherwise it reads.
#[tactic(auto, unfolding(crate::specs::Moves::ready_alone))]
fn ready_alone(me: u32, local: Local) -> Local
    ensures { result ≡ ready_alone me local }
{
    if recovered(local.head, local.version) {
        local
    } else {
        read_alone(me, local)
    }
}

// The whole call of a server alone: of its rounds only what they store is left.
#[tactic(auto, unfolding(crate::specs::Moves::alone_move, crate::specs::Moves::finished_move))]
fn alone_move(me: u32, res: u32, local: Local) -> Move
    ensures { result ≡ alone_move me res local }
{
    if res == NO_RESULT {
        let written = own_write_move(me, ready_alone(me, local));
        let ended = finished_move(DONE, written.local);
        Move {
            fills: written.fills,
            keeps: written.keeps,
            ..ended
        }
    } else {
        finished_move(res, read_alone(me, local))
    }
}

// The call of this number, of words of this kind, is taken.
#[tactic(auto, unfolding(crate::specs::Moves::begun_move))]
pub fn begun_move(servers: u32, me: u32, number: u32, kind: u32, res: u32, local: Local) -> Move
    ensures { result ≡ begun_move servers me number kind res local }
{
    let call = Call {
        kind,
        number,
        rounds: 0,
        sent: 0,
    };
    let after = Local { call, ..local };
    if servers <= 1 {
        alone_move(me, res, after)
    } else {
        started_move(me, res, after)
    }
}

// The kinds of calls that may write: `set`, `setif` and `del`.
#[tactic(auto, unfolding(crate::specs::Moves::may_write))]
fn may_write(kind: u32) -> bool
    ensures { result ≡ may_write kind }
{
    matches!(kind, SET..=DEL)
}

// Whether the line of a call needs the call's effect: with one server, and on a recovered copy for a call that may write.
#[tactic(auto, unfolding(crate::specs::Moves::needs_effect))]
pub fn needs_effect(servers: u32, kind: u32, local: Local) -> bool
    ensures { result ≡ needs_effect servers kind local }
{
    servers <= 1 || (recovered(local.head, local.version) && may_write(kind))
}
