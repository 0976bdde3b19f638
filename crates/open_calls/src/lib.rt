// Open calls: the count of their rounds, their endings, and the versions that they read and write. What each number stands for is said
// in crates/server/specs/Views.antt.
#![tactic(auto)]

ghost use Rattle.std.specs.Prelude.{◌≡◌, ℕ, ◌+◌, ◌^◌, ◌<◌, List, [], ◌==◌};
ghost use Rattle.entries.specs.Entries.{Entry};
ghost use Rattle.model.specs.Calls as calls;
ghost use Rattle.model.specs.Cluster.{Server, copy_at};
ghost use Rattle.model.specs.Leader.{one_more, ended, next_version};
ghost use Rattle.server.specs.Views.{stored_in, version_in, call_in, taken_in, answer_in};
ghost use Rattle.open_calls.specs.Calls.{sent_by, ended_as, one_more_of, ended_of, next_version_of};

use server::codes::{NOTDONE, SENT, UNKNOWN};
use server::{Answer, Call, Head, Version};

// Whether the own write was sent, after a round that is the own write or not.
#[tactic(auto, unfolding(crate::specs::Calls::sent_by))]
fn sent_by(own: bool, sent: u32) -> u32
    ensures { result ≡ sent_by own sent }
{
    if own { SENT } else { sent }
}

// One more round made for a call; `own` where it is the call's own write.
#[tactic(auto, using(crate::proofs::CallLaws::one_more_means))]
pub fn one_more(own: bool, call: Call) -> Call
    ensures is { result ≡ one_more_of own call }
    ensures means { (words : calls.Words) → call.rounds + 1 < 2 ^ 32 → call_in result words ≡ one_more own (call_in call words) }
{
    Call {
        rounds: call.rounds.wrapping_add(1),
        sent: sent_by(own, call.sent),
        ..call
    }
}

// `unknown` where the own write was sent, otherwise `notdone`.
#[tactic(auto, unfolding(crate::specs::Calls::ended_as))]
fn ended_as(sent: u32) -> u32
    ensures { result ≡ ended_as sent }
{
    if sent == SENT { UNKNOWN } else { NOTDONE }
}

// The answer to a call that ends because leading ends.
#[tactic(auto, using(crate::proofs::CallLaws::ended_means))]
pub fn ended(call: Call) -> Answer
    ensures is { result ≡ ended_of call }
    ensures means { (words : calls.Words) (v : List ℕ) (t : List Entry) → answer_in result v t ≡ ended (taken_in call words) }
{
    Answer {
        call: call.number,
        result: ended_as(call.sent),
        rounds: call.rounds,
    }
}

// The next version under the leader's number, above that of its copy.
#[tactic(auto, using(crate::proofs::CallLaws::next_version_means))]
pub fn next_version(number: u32, version: Version) -> Version
    ensures is { result ≡ next_version_of number version }
    ensures means { (b : ℕ) (s : Server) → version.counter + 1 < 2 ^ 32 → number ≡ s.stored.number → version_in version ≡ (copy_at s.stored b).version → version_in result ≡ next_version b s }
{
    Version {
        election: number,
        counter: version.counter.wrapping_add(1),
    }
}

// Whether the copy with this version was recovered under the leader's number.
pub fn recovered(head: Head, version: Version) -> bool
    ensures { result ≡ ((version_in version).election == (stored_in head []).number) }
{
    version.election == head.number
}
