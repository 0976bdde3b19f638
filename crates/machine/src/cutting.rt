// A message cut short: judged from the list and the server that it goes to.
ghost use Rattle.std.specs.Prelude.{◌≡◌};
ghost use Rattle.memory.specs.Lent.{was};
ghost use Rattle.plans.specs.Arrays.{Measured, cut_in};

use memory::{Counts, HeadWords, QueueWords, SlotWords};
use messages::load_message;
use plans::Plan;
use plans::cuts::{cut_plan, cut_step};
use plans::deliveries::receiver;
use refusals::{Refusal, message_refusal};

// 5, 7 and 18, or the cut of the message with this index after so many stores.
#[tactic(auto, unfolding(plans::specs::Plans::cut_at, plans::specs::Plans::unless))]
pub fn plan_cut(
    heads: &HeadWords,
    slots: &SlotWords,
    queue: &QueueWords,
    cluster: Counts,
    index: u32,
    stores: u32,
) -> Result<Plan, Refusal>
    requires { Measured cluster }
    ensures { result ≡ cut_in heads.now slots.now queue.now cluster index stores }
{
    message_refusal(cluster, index)?;
    let message = load_message(queue, index as usize);
    let step = cut_step(cluster, index, message);
    let local = receiver(heads, slots, step);
    cut_plan(cluster, step, stores, message, local)
}
