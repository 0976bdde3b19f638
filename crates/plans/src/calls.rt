// The five calls: `get`, `set`, `setif`, `del` and `keys`.
ghost use Rattle.std.specs.Prelude.{◌≡◌, ◌*◌, ◌<◌, length};
ghost use Rattle.std.proofs.Math.Option.{none};
ghost use Rattle.hash.specs.Fnv.{bucket_of};
ghost use Rattle.entries.specs.Decoded.{key_bytes};
ghost use Rattle.model.specs.Calls as calls;
ghost use Rattle.server.specs.Views.{effect_in, words_in};
ghost use Rattle.memory.specs.Layout.{server_room, bucket_room, slot_room, content_size};
ghost use Rattle.moves.specs.Reactions.{EffectNeeded};
ghost use Rattle.memory.specs.Lent.{was};
ghost use Rattle.views.specs.Memory.{table_at};
ghost use Rattle.plans.specs.Plans.{bad_key, bad_item, bad_lengths, call_bucket, call_step, leader_refusal, call_plan};
ghost use Rattle.plans.specs.Arrays.{Measured, Called, CallPlanned};

use crate::parts::{line_step, no_effect};
use crate::servers::load_local;
use crate::{Carried, Plan, Step};
use decoding::decode;
use effects::effect;
use entries::{KEY_ROOM, Key, VALUE_ROOM, Value};
use hash::bucket_of;
use memory::{CONTENT_SIZE, CopyBytes, Counts, HeadWords, SlotWords, slot_of};
use moves::Local;
use moves::leading::{begun_move, needs_effect};
use refusals::{Refusal, inside, places_refusal, server_refusal};
use server::codes::{KEYS, LEADING, NOTDONE};
use server::kinds::is_open_call;
use server::{Effect, Words};
use table::BUCKET_SIZE;

#[tactic(auto, unfolding(crate::specs::Plans::bad_key))]
fn bad_key(len: usize) -> bool
    ensures { result ≡ bad_key len }
{
    len == 0 || KEY_ROOM < len
}

// A value that is there and too long.
#[tactic(auto, unfolding(crate::specs::Plans::bad_item))]
fn bad_item(item: Option<Value>) -> bool
    ensures { result ≡ bad_item item }
{
    match item {
        Some(value) => VALUE_ROOM < value.len,
        None => false,
    }
}

// 4: a key or value of wrong length.
#[tactic(auto, unfolding(crate::specs::Plans::bad_lengths))]
fn bad_lengths(words: Words) -> bool
    ensures { result ≡ bad_lengths words }
{
    words.kind != KEYS
        && (bad_key(words.key.len) || bad_item(words.expected) || bad_item(words.value))
}

fn key_bucket(key: Key, buckets: u32) -> u32
    ensures { result ≡ bucket_of buckets (key_bytes key) }
{
    bucket_of(key.as_slice(), buckets)
}

// A key's bucket, or the one named.
#[tactic(auto, unfolding(crate::specs::Plans::call_bucket))]
fn call_bucket(cluster: Counts, words: Words) -> u32
    ensures { result ≡ call_bucket cluster words }
{
    if words.kind == KEYS {
        words.bucket
    } else {
        key_bucket(words.key, cluster.buckets)
    }
}

// 8 and 9.
#[tactic(auto, unfolding(crate::specs::Plans::leader_refusal))]
fn leader_refusal(local: Local) -> Result<(), Refusal>
    ensures { result ≡ leader_refusal local }
{
    if local.head.role != LEADING {
        Err(Refusal::NotLeading)
    } else if is_open_call(local.call.kind) {
        Err(Refusal::BucketOccupied)
    } else {
        Ok(())
    }
}

fn call_step(cluster: Counts, server: u32, bucket: u32) -> Step
    ensures { result ≡ call_step cluster server bucket }
{
    Step {
        calls: cluster.calls.wrapping_add(1),
        ..line_step(cluster, server, bucket)
    }
}

// 5 to 12, or the call.
#[tactic(auto, unfolding(crate::specs::Plans::call_plan, crate::specs::Plans::unless))]
fn call_plan(
    cluster: Counts,
    server: u32,
    bucket: u32,
    words: Words,
    local: Local,
    effect: Effect,
) -> Result<Plan, Refusal>
    requires { Measured cluster }
    ensures { result ≡ call_plan cluster server bucket words local effect }
{
    server_refusal(cluster, local.head)?;
    leader_refusal(local)?;
    let step = call_step(cluster, server, bucket);
    let next = begun_move(
        cluster.servers,
        server,
        step.calls,
        words.kind,
        effect.result,
        local,
    );
    places_refusal(cluster, step.removes, next.sends)?;
    Ok(Plan::Takes(words, Carried { step, next, effect }))
}

// What a call does to the table of this slot's copy.
fn effect_on(copies: &[u8], slot: usize, words: Words) -> Effect
    requires { (slot < slot_room) × (length copies.now ≡ slot_room * content_size) }
    ensures { effect_in result ≡ calls.effect (words_in words) (table_at copies.now slot) }
{
    let from = slot * CONTENT_SIZE;
    let end = from + BUCKET_SIZE;
    let table = decode(&copies[from..end]);
    effect(words, table)
}

// The same in the array of the copies.
pub fn effect_of(copies: &CopyBytes, slot: usize, words: Words) -> Effect
    requires { slot < slot_room }
    ensures { effect_in result ≡ calls.effect (words_in words) (table_at copies.now slot) }
{
    effect_on(copies, slot, words)
}

// What stands for an effect that writes nothing: any result but 0 will do.
#[tactic(auto, unfolding(model::specs::Calls::effect_writes, server::specs::Views::effect_in))]
fn nothing_written() -> Effect
    ensures { calls.effect_writes (effect_in result) ≡ none }
{
    Effect {
        result: NOTDONE,
        ..no_effect()
    }
}

// What the line of a call needs of the call's effect; where it needs nothing, nothing is worked out.
fn call_effect(
    copies: &CopyBytes,
    cluster: Counts,
    slot: usize,
    words: Words,
    local: Local,
) -> Effect
    requires { slot < slot_room }
    ensures { EffectNeeded cluster.servers local (words_in words) (table_at copies.now slot) result }
{
    if needs_effect(cluster.servers, words.kind, local) {
        return effect_of(copies, slot, words);
    }
    nothing_written()
}

// 5 to 12, or the call, at a server and a bucket that are there.
fn plan_at(
    heads: &HeadWords,
    slots: &SlotWords,
    copies: &CopyBytes,
    cluster: Counts,
    server: u32,
    bucket: u32,
    words: Words,
) -> Result<Plan, Refusal>
    requires { Measured cluster × ((server < server_room) × (bucket < bucket_room)) }
    ensures { Called heads.now slots.now copies.now cluster server bucket words result }
{
    let at = server as usize;
    let slot = slot_of(at, bucket as usize);
    let local = load_local(heads, slots, at, slot);
    let effect = call_effect(copies, cluster, slot, words, local);
    call_plan(cluster, server, bucket, words, local, effect)
}

pub fn plan_call(
    heads: &HeadWords,
    slots: &SlotWords,
    copies: &CopyBytes,
    cluster: Counts,
    server: u32,
    words: Words,
) -> Result<Plan, Refusal>
    requires { Measured cluster }
    ensures { CallPlanned heads.now slots.now copies.now cluster server words result }
{
    let bucket = call_bucket(cluster, words);
    if !inside(cluster, server, bucket) {
        return Err(Refusal::NotThere);
    }
    if bad_lengths(words) {
        return Err(Refusal::BadLength);
    }
    plan_at(heads, slots, copies, cluster, server, bucket, words)
}
