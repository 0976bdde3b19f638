// Whether a cluster stands.
ghost use Rattle.std.specs.Prelude.{◌≡◌};
ghost use Rattle.table.specs.Form.{within};
ghost use Rattle.views.specs.Memory.{standing};

use memory::Counts;
use server::measures::{MAX_BUCKETS, MAX_MESSAGES, MAX_SERVERS};

// A number from 1 to top.
#[tactic(auto, unfolding(table::specs::Form::within))]
pub fn within(top: u32, number: u32) -> bool
    ensures { result ≡ within top number }
{
    1 <= number && number <= top
}

// Whether a cluster stands: its counts are within the measures (RULES, Measures 1 and 3).
#[tactic(auto, unfolding(views::specs::Memory::standing))]
pub fn standing(cluster: Counts) -> bool
    ensures { result ≡ standing cluster }
{
    within(MAX_SERVERS, cluster.servers)
        && within(MAX_BUCKETS, cluster.buckets)
        && cluster.messages <= MAX_MESSAGES
}
