// Votes and elections on a server's head.
ghost use Rattle.std.specs.Prelude.{◌≡◌, ℕ, ◌+◌, ◌^◌, ◌<◌, [], nat_le, nat_lt};
ghost use Rattle.model.specs.Measures.{max_election};
ghost use Rattle.model.specs.Replica.{grants, after_vote, voting, may_accept};
ghost use Rattle.model.specs.Leader.{with_stored, cease, votes_for, standing, elect, on_ack_vote};
ghost use Rattle.server.specs.Views.{Beside, server_in, stored_in, volatile_in, votes_in, idle};
ghost use Rattle.server.specs.Heads.{voting_head, after_vote_head, ceased_head, voted_head, role_by, standing_head, larger_number_of, next_number_of, elected_head, on_ack_vote_head};

use crate::Head;
use crate::codes::{CANDIDATE, FOLLOWER, LEADING, VOTED};
use crate::measures::{MAX_ELECTION, SERVERS};
use crate::numbers::{count, majority, placed};

// Whether a vote for this leader under this number is given.
#[tactic(auto, unfolding(model::specs::Replica::grants))]
pub fn grants(election: u32, leader: u32, head: Head) -> bool
    ensures { result ≡ grants election leader (stored_in head []) }
{
    head.vote < election || (election == head.vote && leader == head.leader)
}

// Whether a replica accepts a request under this number.
pub fn may_accept(election: u32, head: Head) -> bool
    ensures { result ≡ may_accept election (stored_in head []) }
{
    head.vote <= election
}

// The vote goes to this leader under this number.
pub fn voting(election: u32, leader: u32, head: Head) -> Head
    ensures is { result ≡ voting_head election leader head }
    ensures means { (n : ℕ) (x : Beside) → server_in n x result ≡ with_stored (server_in n x head) (voting election leader (stored_in head x.copies)) }
{
    Head {
        vote: election,
        leader,
        ..head
    }
}

// What is stored after PLEASEVOTE of this leader under this number.
#[tactic(auto, unfolding(crate::specs::Heads::after_vote_head, model::specs::Replica::after_vote))]
pub fn after_vote(election: u32, leader: u32, head: Head) -> Head
    ensures is { result ≡ after_vote_head election leader head }
    ensures means { (n : ℕ) (x : Beside) → server_in n x result ≡ with_stored (server_in n x head) (after_vote election leader (stored_in head x.copies)) }
{
    if head.vote < election {
        voting(election, leader, head)
    } else {
        head
    }
}

// Whether the vote is above the server's own number, so that it cannot lead or stand.
pub fn must_step_down(head: Head) -> bool
    ensures { result ≡ nat_lt (stored_in head []).number (stored_in head []).vote }
{
    head.number < head.vote
}

// Neither leader nor candidate.

pub fn ceased(head: Head) -> Head
    ensures is { result ≡ ceased_head head }
    ensures means { (n : ℕ) (x : Beside) → server_in n (idle x) result ≡ (cease (server_in n x head)).server }
{
    Head {
        role: FOLLOWER,
        votes: [0; SERVERS],
        ..head
    }
}

// The votes had among the servers.
#[tactic(auto, using(crate::proofs::Counting::votes_count))]
pub fn votes_for(servers: u32, head: Head) -> u32
    ensures { result ≡ votes_for (votes_in servers head) }
{
    count(servers, head.votes, VOTED)
}

// Leader with a majority of votes, candidate with fewer.
#[tactic(auto, unfolding(crate::specs::Heads::role_by))]
fn role_by(servers: u32, votes: u32) -> u32
    ensures { result ≡ role_by servers votes }
{
    if majority(servers) <= votes {
        LEADING
    } else {
        CANDIDATE
    }
}

// The role goes by the votes had.
#[tactic(auto, using(crate::proofs::HeadLaws::standing_means))]
pub fn standing(servers: u32, head: Head) -> Head
    ensures is { result ≡ standing_head servers head }
    ensures means { (x : Beside) → volatile_in servers result x.rounds x.calls ≡ standing servers (votes_in servers head) (volatile_in servers head x.rounds x.calls) }
{
    let role = role_by(servers, votes_for(servers, head));
    Head { role, ..head }
}

// The vote of this server is had.
fn voted(voter: u32, head: Head) -> Head
    ensures { result ≡ voted_head voter head }
{
    let votes = placed(head.votes, voter, VOTED);
    Head { votes, ..head }
}

// 11: whether there is no number left to stand under.
pub fn last_number(head: Head) -> bool
    ensures { result ≡ nat_le max_election (larger_number_of head) }
{
    head.number.max(head.vote) >= MAX_ELECTION
}

// The number of the next election: one above the larger of number and vote.
fn next_number(head: Head) -> u32
    ensures { result ≡ next_number_of head }
{
    head.number.max(head.vote).wrapping_add(1)
}

// An election: leadership and candidacy end, and the server stands under its next number with its own vote.
#[tactic(auto, using(crate::proofs::HeadLaws::elected_means), unfolding(crate::specs::Heads::elected_head))]
pub fn elected(servers: u32, me: u32, head: Head) -> Head
    ensures is { result ≡ elected_head servers me head }
    ensures means { (x : Beside) → larger_number_of head + 1 < 2 ^ 32 → server_in servers (idle x) result ≡ (elect servers me (server_in servers x head)).server }
{
    let election = next_number(head);
    let after = voting(election, me, ceased(head));
    let raised = Head {
        number: election,
        ..after
    };
    standing(servers, voted(me, raised))
}

// ACKVOTE of a voter under this number: counts only for a candidate, for its present number, once per server.
#[tactic(auto, using(crate::proofs::HeadLaws::on_ack_vote_means), unfolding(crate::specs::Heads::on_ack_vote_head))]
pub fn on_ack_vote(servers: u32, voter: u32, election: u32, head: Head) -> Head
    ensures is { result ≡ on_ack_vote_head servers voter election head }
    ensures means { (x : Beside) → server_in servers x result ≡ (on_ack_vote servers voter election (server_in servers x head)).server }
{
    if head.role == CANDIDATE && election == head.number {
        standing(servers, voted(voter, head))
    } else {
        head
    }
}
