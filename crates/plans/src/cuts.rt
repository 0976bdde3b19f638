// A message cut short: its server is stopped after some of the stores that it makes.
ghost use Rattle.std.specs.Prelude.{◌≡◌};
ghost use Rattle.plans.specs.Plans.{cut_step, cut_plan};
ghost use Rattle.plans.specs.Arrays.{Measured};

use crate::deliveries::{is_gone, message_step};
use crate::parts::no_effect;
use crate::room::move_if_places_left;
use crate::{Plan, Step};
use memory::Counts;
use moves::Local;
use refusals::Refusal;
use restarts::cuts::{can_cut, cut_move};
use server::Message;

// The message leaves the list and counts as lost.
#[tactic(auto, unfolding(server::specs::Views::chosen))]
pub fn cut_step(cluster: Counts, index: u32, message: Message) -> Step
    ensures { result ≡ cut_step cluster index message }
{
    Step {
        delivered: 0,
        lost: 1,
        ..message_step(cluster, index, true, message)
    }
}

// 18, or the cut after so many stores.
#[tactic(auto, unfolding(crate::specs::Plans::cut_plan))]
pub fn cut_plan(
    cluster: Counts,
    step: Step,
    stores: u32,
    message: Message,
    local: Local,
) -> Result<Plan, Refusal>
    requires { Measured cluster }
    ensures { result ≡ cut_plan cluster step stores message local }
{
    if is_gone(cluster, step, local) || !can_cut(stores, message, local) {
        return Err(Refusal::BadCutOrStart);
    }
    move_if_places_left(cluster, step, cut_move(stores, message, local), no_effect())
}
