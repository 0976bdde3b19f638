// Messages that are handed over or lost: the parts of `deliver` and `copy`, and `lose`.
ghost use Rattle.std.specs.Prelude.{◌≡◌, ◌<◌, true, []};
ghost use Rattle.server.specs.Views.{effect_in};
ghost use Rattle.memory.specs.Layout.{server_room, bucket_room, slot_of};
ghost use Rattle.moves.specs.Moves.{reads_table};
ghost use Rattle.memory.specs.Lent.{was};
ghost use Rattle.views.specs.Memory.{memory, local_at};
ghost use Rattle.plans.specs.Plans.{message_step, lost_step, gone, lose_at};
ghost use Rattle.plans.specs.Arrays.{asked_at};

use crate::calls::effect_of;
use crate::parts::{line_step, no_effect};
use crate::servers::load_local;
use crate::{Plan, Step};
use memory::{CopyBytes, Counts, HeadWords, SlotWords, TextBytes, slot_of};
use moves::Local;
use moves::handling::reads_table;
use records::words::load_words;
use refusals::{Refusal, has_no_receiver, message_refusal};
use server::measures::{LAST_BUCKET, LAST_SERVER};
use server::{Effect, Message};

// A message that is handed over; `copy` leaves it in the list.
#[tactic(auto, unfolding(server::specs::Views::chosen))]
pub fn message_step(cluster: Counts, index: u32, removes: bool, message: Message) -> Step
    ensures { result ≡ message_step cluster index removes message }
{
    Step {
        server: message.receiver.min(LAST_SERVER),
        bucket: message.bucket.min(LAST_BUCKET),
        index,
        removes,
        asked: message,
        copied: u32::from(!removes),
        delivered: 1,
        lost: 0,
        calls: cluster.calls,
    }
}

// A message that is lost; what happens is at no server.
#[tactic(auto, unfolding(server::specs::Views::chosen))]
fn lost_step(cluster: Counts, index: u32, removes: bool) -> Step
    ensures { result ≡ lost_step cluster index removes }
{
    Step {
        index,
        removes,
        copied: u32::from(!removes),
        lost: 1,
        ..line_step(cluster, 0, 0)
    }
}

// The receiver of a message that is handed over.
pub fn receiver(heads: &HeadWords, slots: &SlotWords, step: Step) -> Local
    requires { (step.server < server_room) × (step.bucket < bucket_room) }
    ensures { result ≡ local_at (memory [] heads.now slots.now [] [] [] [] []) step.server (slot_of step.server step.bucket) }
{
    let server = step.server as usize;
    let slot = slot_of(server, step.bucket as usize);
    load_local(heads, slots, server, slot)
}

// Whether a message has no receiver. The step's server is within the arrays whatever the message says, so the message itself is
// asked.
pub fn is_gone(cluster: Counts, step: Step, local: Local) -> bool
    ensures { result ≡ gone cluster step local }
{
    has_no_receiver(cluster, step.asked.receiver, local.head)
}

// What the call does that stands where a message is handed over.
fn hand_effect(slots: &SlotWords, copies: &CopyBytes, texts: &TextBytes, step: Step) -> Effect
    requires { (step.server < server_room) × (step.bucket < bucket_room) }
    ensures { effect_in result ≡ asked_at (memory [] [] slots.now copies.now [] texts.now [] []) step }
{
    let slot = slot_of(step.server as usize, step.bucket as usize);
    let words = load_words(slots, texts, slot);
    effect_of(copies, slot, words)
}

// The effect that a message asks for; one that does not close a checking round asks for none.
pub fn asked_effect(
    slots: &SlotWords,
    copies: &CopyBytes,
    texts: &TextBytes,
    servers: u32,
    message: Message,
    local: Local,
    step: Step,
) -> Effect
    requires { (step.server < server_room) × (step.bucket < bucket_room) }
    ensures { reads_table servers message local ≡ true → effect_in result ≡ asked_at (memory [] [] slots.now copies.now [] texts.now [] []) step }
{
    if reads_table(servers, message, local) {
        return hand_effect(slots, copies, texts, step);
    }
    no_effect()
}

// 5 and 7, or the loss of the message.
#[tactic(auto, unfolding(crate::specs::Plans::lose_at, crate::specs::Plans::unless))]
pub fn plan_lose(cluster: Counts, index: u32) -> Result<Plan, Refusal>
    ensures { result ≡ lose_at cluster index }
{
    message_refusal(cluster, index)?;
    Ok(Plan::Loses(lost_step(cluster, index, true)))
}
