// A move, unless there are too few places for what it sends.
ghost use Rattle.std.specs.Prelude.{◌≡◌, ◌≤◌};
ghost use Rattle.memory.specs.Layout.{server_room, message_room};
ghost use Rattle.plans.specs.Plans.{move_if_places_left};

use crate::parts::move_plan;
use crate::{Plan, Step};
use memory::Counts;
use moves::Move;
use refusals::{Refusal, places_refusal};
use server::Effect;

// 12, or the move.
#[tactic(auto, unfolding(crate::specs::Plans::unless))]
pub fn move_if_places_left(
    cluster: Counts,
    step: Step,
    next: Move,
    effect: Effect,
) -> Result<Plan, Refusal>
    requires { (cluster.servers ≤ server_room) × (cluster.messages ≤ message_room) }
    ensures { result ≡ move_if_places_left cluster step next effect }
{
    places_refusal(cluster, step.removes, next.sends)?;
    Ok(move_plan(step, next, effect))
}
