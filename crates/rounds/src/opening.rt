// A round is opened by a broadcast of its call's server.
ghost use Rattle.std.specs.Prelude.{◌≡◌, ℕ, ◌+◌, ◌^◌, ◌<◌, min};
ghost use Rattle.model.specs.Cluster.{copy_at};
ghost use Rattle.model.specs.Replica.{Request};
ghost use Rattle.model.specs.Leader.{report_to, new_round, opening};
ghost use Rattle.server.specs.Views.{Beside, stored_in, server_in, beside_in, purpose_in, version_in, open_in};
ghost use Rattle.rounds.specs.Rounds.{no_version, reported, new_round_of, opened_head};

use server::codes::{ACKNOWLEDGED, RECOVERY_READ};
use server::measures::SERVERS;
use server::numbers::placed;
use server::{Head, Round, Version};

// The version below all others, which stands where there is none.
pub fn no_version() -> Version
    ensures { result ≡ no_version }
{
    Version {
        election: 0,
        counter: 0,
    }
}

// Only a recovery read looks at the versions that replicas report.
#[tactic(auto, unfolding(crate::specs::Rounds::reported, crate::specs::Rounds::pick_version))]
pub fn report_to(purpose: u32, version: Version) -> Version
    ensures { result ≡ reported purpose version }
{
    if purpose == RECOVERY_READ {
        version
    } else {
        no_version()
    }
}

// The round of a broadcast, with the sender's own acknowledgement, and the version of its copy.
#[tactic(auto, using(crate::proofs::RoundLaws::new_round_means))]
pub fn new_round(me: u32, purpose: u32, head: Head, version: Version) -> Round
    ensures is { result ≡ new_round_of me purpose head version }
    ensures means { (n b : ℕ) (x : Beside) → head.last + 1 < 2 ^ 32 → version_in version ≡ (copy_at (stored_in head x.copies) b).version → open_in n result (report_to (purpose_in purpose) (copy_at (stored_in head x.copies) b)).table ≡ new_round (min 7 n) me b (purpose_in purpose) (server_in n x head) }
{
    Round {
        purpose,
        number: head.last.wrapping_add(1),
        election: head.number,
        best: report_to(purpose, version),
        marks: placed([0; SERVERS], me, ACKNOWLEDGED),
    }
}

// The sender's head after a broadcast: its own vote, and one more round.
#[tactic(auto, using(crate::proofs::RoundLaws::opened_means))]
pub fn opened(me: u32, head: Head) -> Head
    ensures is { result ≡ opened_head me head }
    ensures means { (n b purpose : ℕ) (request : Request) (x : Beside) → head.last + 1 < 2 ^ 32 → server_in n (beside_in (opening n me b (purpose_in purpose) request (server_in n x head))) result ≡ opening n me b (purpose_in purpose) request (server_in n x head) }
{
    Head {
        vote: head.number,
        leader: me,
        last: head.last.wrapping_add(1),
        ..head
    }
}
