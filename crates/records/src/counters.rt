// The cluster's counts in eight lent words, three of them spare.
ghost use Rattle.std.specs.Prelude.{◌≡◌};
ghost use Rattle.memory.specs.Layout.{counts_fields, counts_stores, counts_at, put_counts};
ghost use Rattle.memory.specs.Lent.{was, is};

use memory::offsets::{COUNT_BUCKETS, COUNT_CALLS, COUNT_LINES, COUNT_MESSAGES, COUNT_SERVERS};
use memory::{CountWords, Counts};

pub fn load_counts(counts: &CountWords) -> Counts
    ensures { result ≡ counts_at counts.now }
{
    counts_fields(counts)
}

// The same, with the fields written out in the contract.
fn counts_fields(counts: &CountWords) -> Counts
    ensures { result ≡ counts_fields counts.now }
{
    Counts {
        servers: counts[COUNT_SERVERS],
        buckets: counts[COUNT_BUCKETS],
        messages: counts[COUNT_MESSAGES],
        lines: counts[COUNT_LINES],
        calls: counts[COUNT_CALLS],
    }
}

pub fn store_counts(counts: &mut CountWords, cluster: Counts)
    ensures { is counts ≡ put_counts (was counts) cluster }
{
    counts_stores(counts, cluster);
}

fn counts_stores(counts: &mut CountWords, cluster: Counts)
    ensures { is counts ≡ counts_stores (was counts) cluster }
{
    counts[COUNT_SERVERS] = cluster.servers;
    counts[COUNT_BUCKETS] = cluster.buckets;
    counts[COUNT_MESSAGES] = cluster.messages;
    counts[COUNT_LINES] = cluster.lines;
    counts[COUNT_CALLS] = cluster.calls;
}
