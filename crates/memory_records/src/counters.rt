// The cluster's counts, the first region of the words.
ghost use Rattle.std.specs.Prelude.{◌≡◌};
ghost use Rattle.memory.specs.Rows.{row, put_row};
ghost use Rattle.memory.specs.Layout.{counts_words, counts_row, counts_of, counts_at, put_counts};
ghost use Rattle.memory.specs.Lent.{was, is, read_only};
ghost use Rattle.memory_regions.specs.Regions.{counts_place, old_regions, new_regions, with_counts};

use memory::Counts;
use memory::offsets::{COUNT_BUCKETS, COUNT_CALLS, COUNT_LINES, COUNT_MESSAGES, COUNT_SERVERS};
use memory_regions::{COUNTS_AT, Words};

pub fn load_counts(words: &Words) -> Counts
    ensures { result ≡ counts_at (old_regions (read_only words)).counts }
{
    counts_fields(words)
}

// The same, with the fields written out in the contract, as words of the whole array.
fn counts_fields(words: &Words) -> Counts
    ensures { result ≡ counts_of (row counts_place 0 counts_words words.now) }
{
    Counts {
        servers: words[COUNTS_AT + COUNT_SERVERS],
        buckets: words[COUNTS_AT + COUNT_BUCKETS],
        messages: words[COUNTS_AT + COUNT_MESSAGES],
        lines: words[COUNTS_AT + COUNT_LINES],
        calls: words[COUNTS_AT + COUNT_CALLS],
    }
}

pub fn store_counts(words: &mut Words, cluster: Counts)
    ensures { new_regions words ≡ with_counts (old_regions words) (put_counts (old_regions words).counts cluster) }
{
    counts_stores(words, cluster);
}

fn counts_stores(words: &mut Words, cluster: Counts)
    ensures { is words ≡ put_row (was words) counts_place 0 (counts_row cluster) }
{
    words[COUNTS_AT + COUNT_SERVERS] = cluster.servers;
    words[COUNTS_AT + COUNT_BUCKETS] = cluster.buckets;
    words[COUNTS_AT + COUNT_MESSAGES] = cluster.messages;
    words[COUNTS_AT + COUNT_LINES] = cluster.lines;
    words[COUNTS_AT + COUNT_CALLS] = cluster.calls;
}
