// One line: refused, or a cluster made, or its plan carried out.
ghost use Rattle.std.specs.Prelude.{◌≡◌, true, if◌then◌else◌, Some, None};
ghost use Rattle.views.specs.Lent.{lent, SameArrays};
ghost use Rattle.plans.specs.Arrays.{Measured};
ghost use Rattle.runs.specs.Runs.{words_with, words_of};
ghost use Rattle.machine.specs.Steps.{LinePlanned, is_planned};
ghost use Rattle.machine.specs.Lent.{RunsPlan, RunsLine, Clusters};

use crate::carrying::execute;
use crate::cutting::plan_cut;
use crate::fresh::create;
use crate::handing::hand_line;
use crate::numbers::{standing, within};
use entries::{Key, Value};
use memory::{Arrays, CopyBytes, Counts, HeadWords, QueueWords, SlotWords};
use parse::{Kind, Line};
use plans::Plan;
use plans::calls::plan_call;
use plans::deliveries::plan_lose;
use plans::parts::no_words;
use plans::servers::{plan_elect, plan_start, plan_stop, plan_timeout};
use records::counters::load_counts;
use refusals::Refusal;
use runs::{Report, bare_report};
use server::Words;
use server::codes::{DEL, GET, KEYS, SET, SETIF};
use server::measures::{MAX_BUCKETS, MAX_SERVERS};

fn words(kind: u32, bucket: u32, key: Key, expected: Option<Value>, value: Option<Value>) -> Words
    ensures { result ≡ words_with kind bucket key expected value }
{
    Words {
        kind,
        bucket,
        key,
        expected,
        value,
    }
}

// A value that is there or not.
fn item(there: bool, value: Value) -> Option<Value>
    ensures { result ≡ (if there then Some value else None) }
{
    if there { Some(value) } else { None }
}

// The words of a call: what its kind does not use is none.
#[tactic(auto, unfolding(runs::specs::Runs::words_of))]
fn words_of(line: Line) -> Words
    ensures { result ≡ words_of line.kind line }
{
    let key = line.key;
    let value = item(line.has_value, line.value);
    match line.kind {
        Kind::Get => words(GET, 0, key, None, None),
        Kind::Set => words(SET, 0, key, None, value),
        Kind::SetIf => {
            let expected = item(line.has_expected, line.expected);
            words(SETIF, 0, key, expected, value)
        }
        Kind::Del => words(DEL, 0, key, None, None),
        Kind::Keys => words(KEYS, line.second, Key::empty(), None, None),
        _ => no_words(),
    }
}

// What a line would do, by its kind. Only a line that needs a cluster and hands no message over is planned.
fn plan_line(
    heads: &HeadWords,
    slots: &SlotWords,
    copies: &CopyBytes,
    queue: &QueueWords,
    cluster: Counts,
    line: Line,
) -> Result<Plan, Refusal>
    requires { Measured cluster × (is_planned line.kind ≡ true) }
    ensures { LinePlanned heads.now slots.now copies.now queue.now cluster line result }
{
    let server = line.first;
    match line.kind {
        Kind::Elect => plan_elect(heads, slots, cluster, server),
        Kind::Lose => plan_lose(cluster, server),
        Kind::Timeout => plan_timeout(heads, slots, cluster, server, line.second),
        Kind::Stop => plan_stop(heads, slots, cluster, server),
        Kind::Cut => plan_cut(heads, slots, queue, cluster, server, line.second),
        Kind::Start => plan_start(heads, slots, cluster, server),
        _ => plan_call(heads, slots, copies, cluster, server, words_of(line)),
    }
}

// The cluster line: 2 where its numbers are out of range or a cluster stands.
fn cluster_line(arrays: &mut Arrays<'_>, servers: u32, buckets: u32) -> Result<(), Refusal>
    ensures same { SameArrays arrays }
    ensures clusters { Clusters (lent arrays) servers buckets result }
{
    if standing(load_counts(arrays.counts)) {
        return Err(Refusal::ClusterWrong);
    }
    if within(MAX_SERVERS, servers) && within(MAX_BUCKETS, buckets) {
        create(arrays, servers, buckets);
        return Ok(());
    }
    Err(Refusal::ClusterWrong)
}

// A line that needs a cluster and hands no message over.
fn planned_line(arrays: &mut Arrays<'_>, line: Line) -> Result<Report, Refusal>
    requires { is_planned line.kind ≡ true }
    ensures same { SameArrays arrays }
    ensures runs { RunsPlan (lent arrays) line result }
{
    let cluster = load_counts(arrays.counts);
    if !standing(cluster) {
        return Err(Refusal::ClusterWrong);
    }
    let plan = plan_line(
        arrays.heads,
        arrays.slots,
        arrays.copies,
        arrays.queue,
        cluster,
        line,
    )?;
    Ok(execute(arrays, cluster, plan))
}

// One line of a script.
pub fn run_line(arrays: &mut Arrays<'_>, line: Line) -> Result<Report, Refusal>
    ensures same { SameArrays arrays }
    ensures runs { RunsLine (lent arrays) line result }
{
    match line.kind {
        Kind::Malformed => Err(Refusal::Malformed),
        Kind::Cluster => {
            cluster_line(arrays, line.first, line.second)?;
            Ok(bare_report())
        }
        Kind::Deliver => hand_line(arrays, line.first, true),
        Kind::Copy => hand_line(arrays, line.first, false),
        _ => planned_line(arrays, line),
    }
}
