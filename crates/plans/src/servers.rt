// Lines that name a server: `elect`, `timeout`, `stop` and `start`.
ghost use Rattle.std.specs.Prelude.{◌≡◌, ◌<◌};
ghost use Rattle.memory.specs.Layout.{server_room, slot_room, head_at, version_at, round_at, call_at};
ghost use Rattle.moves.specs.Moves.{local_of};
ghost use Rattle.memory.specs.Lent.{was};
ghost use Rattle.plans.specs.Plans.{elect_plan, timeout_plan, stop_plan, start_plan};
ghost use Rattle.plans.specs.Arrays.{Measured, elect_in, timeout_in, stop_in, start_in};

use crate::Plan;
use crate::parts::{line_step, no_effect};
use crate::room::move_if_places_left;
use memory::{Counts, HeadWords, SlotWords, slot_of};
use moves::Local;
use moves::roles::{ceased_move, elected_move, stopped_move};
use records::heads::load_head;
use records::slots::{load_call, load_round, load_version};
use refusals::{Refusal, inside, server_refusal, start_refusal};
use restarts::starts::restarted_move;
use rounds::replies::is_open;
use server::votes::last_number;

// The head of this server with this slot.
pub fn load_local(heads: &HeadWords, slots: &SlotWords, server: usize, slot: usize) -> Local
    requires { (server < server_room) × (slot < slot_room) }
    ensures { result ≡ local_of (head_at heads.now server) (version_at slots.now slot) (round_at slots.now slot) (call_at slots.now slot) }
{
    Local {
        head: load_head(heads, server),
        version: load_version(slots, slot),
        round: load_round(slots, slot),
        call: load_call(slots, slot),
    }
}

// 5, 6, 11 and 12, or the election.
#[tactic(auto, unfolding(crate::specs::Plans::elect_plan, crate::specs::Plans::unless))]
fn elect_plan(cluster: Counts, server: u32, local: Local) -> Result<Plan, Refusal>
    requires { Measured cluster }
    ensures { result ≡ elect_plan cluster server local }
{
    server_refusal(cluster, local.head)?;
    if last_number(local.head) {
        return Err(Refusal::LastElection);
    }
    let step = line_step(cluster, server, 0);
    let next = elected_move(cluster.servers, server, local);
    move_if_places_left(cluster, step, next, no_effect())
}

#[tactic(auto, unfolding(crate::specs::Plans::elect_at))]
pub fn plan_elect(
    heads: &HeadWords,
    slots: &SlotWords,
    cluster: Counts,
    server: u32,
) -> Result<Plan, Refusal>
    requires { Measured cluster }
    ensures { result ≡ elect_in heads.now slots.now cluster server }
{
    if !inside(cluster, server, 0) {
        return Err(Refusal::NotThere);
    }
    let at = server as usize;
    let local = load_local(heads, slots, at, slot_of(at, 0));
    elect_plan(cluster, server, local)
}

// 5, 6 and 10, or the end of leading; it sends nothing, so the test of places left never gives 12 (RULES, Refusals 6).
#[tactic(auto, unfolding(crate::specs::Plans::timeout_plan, crate::specs::Plans::unless))]
fn timeout_plan(cluster: Counts, server: u32, bucket: u32, local: Local) -> Result<Plan, Refusal>
    requires { Measured cluster }
    ensures { result ≡ timeout_plan cluster server bucket local }
{
    server_refusal(cluster, local.head)?;
    if !is_open(local.round) {
        return Err(Refusal::NoRoundOpen);
    }
    let step = line_step(cluster, server, bucket);
    move_if_places_left(cluster, step, ceased_move(local), no_effect())
}

#[tactic(auto, unfolding(crate::specs::Plans::timeout_at))]
pub fn plan_timeout(
    heads: &HeadWords,
    slots: &SlotWords,
    cluster: Counts,
    server: u32,
    bucket: u32,
) -> Result<Plan, Refusal>
    requires { Measured cluster }
    ensures { result ≡ timeout_in heads.now slots.now cluster server bucket }
{
    if !inside(cluster, server, bucket) {
        return Err(Refusal::NotThere);
    }
    let at = server as usize;
    let local = load_local(heads, slots, at, slot_of(at, bucket as usize));
    timeout_plan(cluster, server, bucket, local)
}

// 5 and 6, or the stop; it sends nothing, so the test of places left never gives 12 (RULES, Refusals 6).
#[tactic(auto, unfolding(crate::specs::Plans::stop_plan, crate::specs::Plans::unless))]
fn stop_plan(cluster: Counts, server: u32, local: Local) -> Result<Plan, Refusal>
    requires { Measured cluster }
    ensures { result ≡ stop_plan cluster server local }
{
    server_refusal(cluster, local.head)?;
    let step = line_step(cluster, server, 0);
    move_if_places_left(cluster, step, stopped_move(local), no_effect())
}

#[tactic(auto, unfolding(crate::specs::Plans::stop_at))]
pub fn plan_stop(
    heads: &HeadWords,
    slots: &SlotWords,
    cluster: Counts,
    server: u32,
) -> Result<Plan, Refusal>
    requires { Measured cluster }
    ensures { result ≡ stop_in heads.now slots.now cluster server }
{
    if !inside(cluster, server, 0) {
        return Err(Refusal::NotThere);
    }
    let at = server as usize;
    let local = load_local(heads, slots, at, slot_of(at, 0));
    stop_plan(cluster, server, local)
}

// 5 and 18, or the start.
#[tactic(auto, unfolding(crate::specs::Plans::start_plan, crate::specs::Plans::unless))]
fn start_plan(cluster: Counts, server: u32, local: Local) -> Result<Plan, Refusal>
    requires { Measured cluster }
    ensures { result ≡ start_plan cluster server local }
{
    start_refusal(cluster, local.head)?;
    let step = line_step(cluster, server, 0);
    move_if_places_left(cluster, step, restarted_move(local), no_effect())
}

#[tactic(auto, unfolding(crate::specs::Plans::start_at))]
pub fn plan_start(
    heads: &HeadWords,
    slots: &SlotWords,
    cluster: Counts,
    server: u32,
) -> Result<Plan, Refusal>
    requires { Measured cluster }
    ensures { result ≡ start_in heads.now slots.now cluster server }
{
    if !inside(cluster, server, 0) {
        return Err(Refusal::NotThere);
    }
    let at = server as usize;
    let local = load_local(heads, slots, at, slot_of(at, 0));
    start_plan(cluster, server, local)
}
