// Why a line is refused; and the tests of refusals 3, 5, 6, 7 and 12, which bear on several kinds of lines, and of 18 of a start: from the
// counts of a cluster, 6 and 18 with a server's head, 12 with the kind of message that is sent.
#![tactic(auto)]

ghost use Rattle.std.specs.Prelude.{◌≡◌, ◌≤◌, ℕ};
ghost use Rattle.memory.specs.Layout.{server_room, message_room};
ghost use Rattle.refusals.specs.Refusals.{number, send_count, places_left, places_refusal, server_refusal, start_refusal, no_receiver, inside, message_refusal};

use memory::Counts;
use server::Head;
use server::codes::{NO_MESSAGE, STOPPED};
use server::kinds::is_broadcast;
use server::measures::{MAX_ACCEPTED, MAX_MESSAGES};

// Why a line is refused.
#[derive(Clone, Copy, Debug, PartialEq, Eq)]
pub enum Refusal {
    Malformed,
    ClusterWrong,
    NotThere,
    BadLength,
    LinesSpent,
    ServerStopped,
    NoSuchMessage,
    NotLeading,
    BucketOccupied,
    NoRoundOpen,
    LastElection,
    NoPlaces,
    BadCutOrStart,
}

impl Refusal {
    // The number that is printed (RULES, Refusals 3).
    pub fn number(self) -> u32
        ensures { result ≡ number self }
    {
        match self {
            Refusal::Malformed => 1,
            Refusal::ClusterWrong => 2,
            Refusal::NotThere => 3,
            Refusal::BadLength => 4,
            Refusal::LinesSpent => 5,
            Refusal::ServerStopped => 6,
            Refusal::NoSuchMessage => 7,
            Refusal::NotLeading => 8,
            Refusal::BucketOccupied => 9,
            Refusal::NoRoundOpen => 10,
            Refusal::LastElection => 11,
            Refusal::NoPlaces => 12,
            Refusal::BadCutOrStart => 18,
        }
    }
}

// What says why a line is refused, told by a number: a refusal, or any number itself.
pub trait Numbered: Copy {
    ghost told_number: { Self → ℕ };

    fn told_number(self) -> u32
        ensures { result ≡ told_number self };
}

impl Numbered for Refusal {
    ghost told_number = { number };

    fn told_number(self) -> u32 {
        self.number()
    }
}

impl Numbered for u32 {
    ghost told_number = { λ number. number };

    fn told_number(self) -> u32 {
        self
    }
}

// 3: whether there are such a server and such a bucket.
#[tactic(auto, unfolding(crate::specs::Refusals::inside))]
pub fn inside(cluster: Counts, server: u32, bucket: u32) -> bool
    ensures { result ≡ inside cluster server bucket }
{
    server < cluster.servers && bucket < cluster.buckets
}

// 5 and 6.
#[tactic(auto, unfolding(crate::specs::Refusals::server_refusal, server::specs::Views::flag_in))]
pub fn server_refusal(cluster: Counts, head: Head) -> Result<(), Refusal>
    ensures { result ≡ server_refusal cluster head }
{
    if cluster.lines >= MAX_ACCEPTED {
        Err(Refusal::LinesSpent)
    } else if head.stopped == STOPPED {
        Err(Refusal::ServerStopped)
    } else {
        Ok(())
    }
}

// 5 and 18: a server that runs cannot be started.
#[tactic(auto, unfolding(crate::specs::Refusals::start_refusal, server::specs::Views::flag_in))]
pub fn start_refusal(cluster: Counts, head: Head) -> Result<(), Refusal>
    ensures { result ≡ start_refusal cluster head }
{
    if cluster.lines >= MAX_ACCEPTED {
        Err(Refusal::LinesSpent)
    } else if head.stopped != STOPPED {
        Err(Refusal::BadCutOrStart)
    } else {
        Ok(())
    }
}

// Whether a message has no receiver: it names no server, or one whose head says that it is stopped.
#[tactic(auto, unfolding(crate::specs::Refusals::no_receiver, server::specs::Views::flag_in))]
pub fn has_no_receiver(cluster: Counts, receiver: u32, head: Head) -> bool
    ensures { result ≡ no_receiver cluster receiver head }
{
    receiver >= cluster.servers || head.stopped == STOPPED
}

// 5 and 7.
#[tactic(auto, unfolding(crate::specs::Refusals::message_refusal))]
pub fn message_refusal(cluster: Counts, index: u32) -> Result<(), Refusal>
    ensures { result ≡ message_refusal cluster index }
{
    if cluster.lines >= MAX_ACCEPTED {
        Err(Refusal::LinesSpent)
    } else if index >= cluster.messages {
        Err(Refusal::NoSuchMessage)
    } else {
        Ok(())
    }
}

// How many messages are sent among so many servers.
#[tactic(auto, unfolding(crate::specs::Refusals::send_count))]
pub fn send_count(servers: u32, kind: u32) -> u32
    ensures { result ≡ send_count servers kind }
{
    if kind == NO_MESSAGE {
        0
    } else if is_broadcast(kind) {
        servers.saturating_sub(1)
    } else {
        1
    }
}

// Whether there is a place for each message; the place of one that is removed is free.
#[tactic(auto, using(crate::proofs::Sending::few_sent), unfolding(server::specs::Views::chosen))]
fn places_left(cluster: Counts, removes: bool, kind: u32) -> bool
    requires { (cluster.servers ≤ server_room) × (cluster.messages ≤ message_room) }
    ensures { result ≡ places_left cluster removes kind }
{
    let sends = send_count(cluster.servers, kind);
    let kept = cluster.messages.saturating_sub(u32::from(removes));
    kept + sends <= MAX_MESSAGES
}

// 12.
#[tactic(auto, unfolding(crate::specs::Refusals::places_refusal))]
pub fn places_refusal(cluster: Counts, removes: bool, kind: u32) -> Result<(), Refusal>
    requires { (cluster.servers ≤ server_room) × (cluster.messages ≤ message_room) }
    ensures { result ≡ places_refusal cluster removes kind }
{
    if places_left(cluster, removes, kind) {
        Ok(())
    } else {
        Err(Refusal::NoPlaces)
    }
}
