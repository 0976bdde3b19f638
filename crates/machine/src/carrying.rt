// A plan is carried out: the server's arrays, then the messages, then the counts.
ghost use Rattle.std.specs.Prelude.{◌≡◌, ◌<◌, ◌≤◌, true};
ghost use Rattle.memory.specs.Layout.{server_room, bucket_room, message_room};
ghost use Rattle.memory.specs.Lent.{was, is, read_only};
ghost use Rattle.views.specs.Queue.{without_message};
ghost use Rattle.views.specs.Lent.{lent, SameArrays};
ghost use Rattle.flight.specs.Flown.{Flown, old_flight};
ghost use Rattle.runs.specs.Carrying.{Carriable, Losable};
ghost use Rattle.machine.specs.Steps.{Lost, Took, Executable};
ghost use Rattle.machine.specs.Lent.{CarriesOn, CarriesOut, CarriesPlan, Executes};

use answers::answer;
use entries::Decoded;
use flight::{remove, send};
use memory::{Arrays, CountWords, Counts, PayloadBytes, QueueWords, SlotWords, TextBytes, slot_of};
use messages::place_of;
use moves::Move;
use plans::{Carried, Plan, Step};
use records::counters::store_counts;
use records::words::store_words;
use refusals::send_count;
use runs::{Report, Told, bare_report, next_counts, report_of};
use server::Words;
use steps::contents::{fill_work, keep_copy};
use steps::locals::settle;

// The message handed over leaves the list, where it is not a copy.
fn leave(
    queue: &mut QueueWords,
    payloads: &PayloadBytes,
    count: usize,
    index: usize,
    removes: bool,
) -> usize
    requires { (count ≤ message_room) × (removes ≡ true → index < count) }
    ensures { Flown (without_message removes index (old_flight queue (read_only payloads) count)) (is queue) payloads.now result }
{
    if removes {
        remove(queue, payloads, count, index)
    } else {
        count
    }
}

// A move is carried out, once the working content of its slot is filled. `place` is that of the message handed over; the answers are
// those of the slots before the move.
fn carry_on(arrays: &mut Arrays<'_>, cluster: Counts, step: Step, next: Move, place: usize) -> Told
    requires { Carriable cluster step next × (place < message_room) }
    ensures same { SameArrays arrays }
    ensures carries { CarriesOn (lent arrays) cluster step next place result }
{
    let server = step.server as usize;
    let buckets = cluster.buckets as usize;
    let messages = cluster.messages as usize;
    let slot = slot_of(server, step.bucket as usize);
    let written = answer(arrays.answers, arrays.slots, server, buckets, next);
    keep_copy(
        arrays.copies,
        arrays.working,
        arrays.payloads,
        slot,
        place,
        next.keeps,
    );
    settle(arrays.heads, arrays.slots, buckets, server, slot, next);
    let index = step.index as usize;
    let left = leave(arrays.queue, arrays.payloads, messages, index, step.removes);
    let count = send(
        arrays.queue,
        arrays.payloads,
        arrays.working,
        arrays.copies,
        left,
        cluster.servers,
        step.server,
        step.bucket,
        slot,
        step.asked,
        next,
    );
    store_counts(arrays.counts, next_counts(cluster, count, step.calls));
    Told {
        answers: written,
        sent: send_count(cluster.servers, next.sends),
        messages: count as u32,
    }
}

// A move is carried out; `table` is the new one, where the move writes one.
pub fn carry_out(
    arrays: &mut Arrays<'_>,
    cluster: Counts,
    step: Step,
    next: Move,
    table: Decoded,
) -> Told
    requires { Carriable cluster step next }
    ensures same { SameArrays arrays }
    ensures carries { CarriesOut (lent arrays) cluster step next table result }
{
    let slot = slot_of(step.server as usize, step.bucket as usize);
    let place = place_of(arrays.queue, step.index as usize);
    fill_work(
        arrays.working,
        arrays.copies,
        arrays.payloads,
        slot,
        place,
        next.fills,
        table,
    );
    carry_on(arrays, cluster, step, next, place)
}

// A message is lost.
pub fn lose(
    counts: &mut CountWords,
    queue: &mut QueueWords,
    payloads: &PayloadBytes,
    cluster: Counts,
    step: Step,
) -> Report
    requires { Losable cluster step }
    ensures { Lost (was counts) (was queue) payloads.now cluster step (is counts) (is queue) payloads.now result }
{
    let count = leave(
        queue,
        payloads,
        cluster.messages as usize,
        step.index as usize,
        step.removes,
    );
    store_counts(counts, next_counts(cluster, count, step.calls));
    Report {
        copied: step.copied,
        lost: 1,
        messages: count as u32,
        ..bare_report()
    }
}

// The words of a call that is taken are stored.
fn take(slots: &mut SlotWords, texts: &mut TextBytes, words: Words, step: Step)
    requires { (step.server < server_room) × (step.bucket < bucket_room) }
    ensures { Took (was slots) (was texts) words step (is slots) (is texts) }
{
    let slot = slot_of(step.server as usize, step.bucket as usize);
    store_words(slots, texts, slot, words);
}

// A planned move is carried out.
fn carry(arrays: &mut Arrays<'_>, cluster: Counts, carried: Carried) -> Report
    requires { Carriable cluster carried.step carried.next }
    ensures same { SameArrays arrays }
    ensures carries { CarriesPlan (lent arrays) cluster carried result }
{
    let Carried { step, next, effect } = carried;
    let told = carry_out(arrays, cluster, step, next, effect.table);
    report_of(told, step, effect)
}

// A plan is carried out.
pub fn execute(arrays: &mut Arrays<'_>, cluster: Counts, plan: Plan) -> Report
    requires { Executable cluster plan }
    ensures same { SameArrays arrays }
    ensures executes { Executes (lent arrays) cluster plan result }
{
    match plan {
        Plan::Loses(step) => lose(arrays.counts, arrays.queue, arrays.payloads, cluster, step),
        Plan::Moves(carried) => carry(arrays, cluster, carried),
        Plan::Takes(words, carried) => {
            take(arrays.slots, arrays.texts, words, carried.step);
            carry(arrays, cluster, carried)
        }
    }
}
