// A move carried out on the two lent arrays: the server's records and contents, then the messages, then the counts. What it leaves is
// said in crates/runs/specs.
#![tactic(auto)]

ghost use Rattle.memory.specs.Lent.{read_only};
ghost use Rattle.std.specs.Prelude.{◌≡◌, ◌<◌};
ghost use Rattle.memory.specs.Layout.{server_room, bucket_room, message_room};
ghost use Rattle.views.specs.Arrays.{old_memory, new_memory};
ghost use Rattle.machine_flight.specs.Flown.{Flies};
ghost use Rattle.runs.specs.Runs.{left_flight, taken};
ghost use Rattle.runs.specs.Carrying.{Losable, Carriable};
ghost use Rattle.machine_carrying.specs.Carried.{ChangesServer, flown_by, CarriesOn, CarriesOut, Loses, Takable, Takes};

use entries::Decoded;
use machine_answers::answer;
use machine_flight::{remove, send};
use machine_steps::contents::fill_work;
use machine_steps::locals::move_server;
use memory::{AnswerWords, Counts, slot_of};
use memory_messages::place_of;
use memory_records::counters::store_counts;
use memory_records::words::store_words;
use memory_regions::{Bytes, Words};
use moves::Move;
use plans::{Plan, Step};
use refusals::send_count;
use runs::{Report, Told, next_counts};
use server::Effect;

pub mod fresh;

// The message handed over leaves the list, where it is not a copy.
fn leave(words: &mut Words, bytes: &Bytes, cluster: Counts, step: Step) -> usize
    requires { Losable cluster step }
    ensures { Flies words (read_only bytes) (left_flight (old_memory words (read_only bytes)) cluster step) result }
{
    let count = cluster.messages as usize;
    if step.removes {
        remove(words, bytes, count, step.index as usize)
    } else {
        count
    }
}

// The answers, then the server; the working content is filled before. `place` is that of the message handed over.
fn change_server(
    words: &mut Words,
    bytes: &mut Bytes,
    answers: &mut AnswerWords,
    cluster: Counts,
    step: Step,
    next: Move,
    place: usize,
) -> u32
    requires { Carriable cluster step next × (place < message_room) }
    ensures { ChangesServer words bytes answers cluster step next place result }
{
    let server = step.server as usize;
    let bucket = step.bucket as usize;
    let buckets = cluster.buckets as usize;
    let written = answer(answers, words, server, buckets, next);
    move_server(words, bytes, buckets, server, bucket, place, next);
    written
}

// The message handed over leaves the list, then the step's own are appended.
fn change_flight(
    words: &mut Words,
    bytes: &mut Bytes,
    cluster: Counts,
    step: Step,
    next: Move,
) -> usize
    requires { Carriable cluster step next }
    ensures { Flies words bytes (flown_by cluster step next (old_memory words bytes)) result }
{
    let left = leave(words, bytes, cluster, step);
    send(words, bytes, left, cluster, step, next)
}

// A move is carried out, once the working content of its slot is filled. `place` is that of the message handed over.
fn carry_on(
    words: &mut Words,
    bytes: &mut Bytes,
    answers: &mut AnswerWords,
    cluster: Counts,
    step: Step,
    next: Move,
    place: usize,
) -> Told
    requires { Carriable cluster step next × (place < message_room) }
    ensures { CarriesOn words bytes answers cluster step next place result }
{
    let written = change_server(words, bytes, answers, cluster, step, next, place);
    let count = change_flight(words, bytes, cluster, step, next);
    store_counts(words, next_counts(cluster, count, step.calls));
    Told {
        answers: written,
        sent: send_count(cluster.servers, next.sends),
        messages: count as u32,
    }
}

// A move is carried out; `table` is the new one, where the move writes one.
pub fn carry_out(
    words: &mut Words,
    bytes: &mut Bytes,
    answers: &mut AnswerWords,
    cluster: Counts,
    step: Step,
    next: Move,
    table: Decoded,
) -> Told
    requires { Carriable cluster step next }
    ensures { CarriesOut words bytes answers cluster step next table result }
{
    let slot = slot_of(step.server as usize, step.bucket as usize);
    let place = place_of(words, step.index as usize);
    fill_work(bytes, slot, place, next.fills, table);
    carry_on(words, bytes, answers, cluster, step, next, place)
}

// A message is lost; the report has this effect.
pub fn lose(words: &mut Words, bytes: &Bytes, cluster: Counts, step: Step, effect: Effect) -> Report
    requires { Losable cluster step }
    ensures { Loses words (read_only bytes) cluster step effect result }
{
    let count = leave(words, bytes, cluster, step);
    store_counts(words, next_counts(cluster, count, step.calls));
    Report {
        effect,
        answers: 0,
        sent: 0,
        copied: step.copied,
        delivered: 0,
        lost: 1,
        messages: count as u32,
    }
}

// The words of a call are stored in the slot of its step.
fn store_call(words: &mut Words, bytes: &mut Bytes, call: server::Words, step: Step)
    requires { (step.server < server_room) × (step.bucket < bucket_room) }
    ensures { new_memory words bytes ≡ taken (old_memory words bytes) call step }
{
    let slot = slot_of(step.server as usize, step.bucket as usize);
    store_words(words, bytes, slot, call);
}

// The words of a call that is taken are stored; any other plan takes none.
pub fn take(words: &mut Words, bytes: &mut Bytes, plan: Plan)
    requires { Takable plan }
    ensures { Takes words bytes plan }
{
    match plan {
        Plan::Takes(call, carried) => store_call(words, bytes, call, carried.step),
        _ => {}
    }
}
