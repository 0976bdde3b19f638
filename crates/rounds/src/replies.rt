// Replies to a round are counted, until it closes or fails.
ghost use Rattle.std.specs.Prelude.{◌≡◌, ℕ, List, []};
ghost use Rattle.entries.specs.Entries.{Entry};
ghost use Rattle.model.specs.Leader.{acknowledgements, refusals, closes, fails, counted};
ghost use Rattle.server.specs.Views.{marks_in, mark_in, copy_in, open_in, round_in, among};
ghost use Rattle.rounds.specs.Rounds.{is_silent, improves, counted_of, pick_table, matching};

use server::codes::{ACKNOWLEDGED, OWN_WRITE, RECOVERY_READ, REFUSED};
use server::numbers::{above, count, majority, place_at, placed};
use server::{Counted, Round, Version};

#[tactic(auto, using(server::proofs::Counting::acknowledgements_count))]
pub fn acknowledgements(servers: u32, round: Round) -> u32
    ensures { result ≡ acknowledgements (marks_in servers round) }
{
    count(servers, round.marks, ACKNOWLEDGED)
}

#[tactic(auto, using(server::proofs::Counting::refusals_count))]
pub fn refusals(servers: u32, round: Round) -> u32
    ensures { result ≡ refusals (marks_in servers round) }
{
    count(servers, round.marks, REFUSED)
}

// A majority of acknowledgements closes a round.
#[tactic(auto, unfolding(model::specs::Leader::closes))]
pub fn closes(servers: u32, round: Round) -> bool
    ensures { result ≡ closes servers (open_in servers round []) }
{
    majority(servers) <= acknowledgements(servers, round)
}

// It fails when refusals leave fewer than a majority.
#[tactic(auto, using(server::proofs::Counting::refusals_within), unfolding(model::specs::Leader::fails))]
pub fn fails(servers: u32, round: Round) -> bool
    ensures { result ≡ fails servers (open_in servers round []) }
{
    servers - refusals(servers, round) < majority(servers)
}

// Whether a mark stands for no reply yet.
#[tactic(auto, unfolding(crate::specs::Rounds::is_silent, server::specs::Views::mark_in))]
fn is_silent(mark: u32) -> bool
    ensures { result ≡ is_silent (mark_in mark) }
{
    !matches!(mark, ACKNOWLEDGED | REFUSED)
}

// Whether what is reported to a round is above its best version.
#[tactic(auto, unfolding(crate::specs::Rounds::improves))]
fn improves(purpose: u32, report: Version, best: Version) -> bool
    ensures { result ≡ improves purpose report best }
{
    purpose == RECOVERY_READ && above(report, best)
}

// The round with the reply of the sender counted: a mark is set once, and what the sender reported counts only with its mark.
#[tactic(auto, unfolding(crate::specs::Rounds::counted_of, crate::specs::Rounds::pick_version))]
pub fn counted(servers: u32, sender: u32, mark: u32, report: Version, round: Round) -> Counted
    ensures is { result ≡ counted_of servers sender mark report round }
    ensures means { (t u : List Entry) → open_in servers result.round (pick_table result.better u t) ≡ counted sender (mark_in mark) (copy_in report u) (open_in servers round t) }
{
    if is_silent(place_at(servers, round.marks, sender, REFUSED)) {
        let better = improves(round.purpose, report, round.best);
        let best = if better { report } else { round.best };
        let marks = placed(round.marks, sender, mark);
        Counted {
            round: Round {
                best,
                marks,
                ..round
            },
            better,
        }
    } else {
        Counted {
            round,
            better: false,
        }
    }
}

#[tactic(auto, unfolding(server::specs::Views::among))]
pub fn is_open(round: Round) -> bool
    ensures { result ≡ among 4 round.purpose }
{
    matches!(round.purpose, RECOVERY_READ..=OWN_WRITE)
}

// Whether a reply with this election number and round is one to the open round.
#[tactic(auto, unfolding(crate::specs::Rounds::matching, server::specs::Views::round_in))]
pub fn matches(current: Round, election: u32, round: u32) -> bool
    ensures { (n : ℕ) (t : List Entry) → result ≡ matching election round (round_in n current t) }
{
    is_open(current) && election == current.election && round == current.number
}
