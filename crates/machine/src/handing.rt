// Messages that are handed over: judged, and carried out at once. Most lines are such, so no plan is made of them.
ghost use Rattle.std.specs.Prelude.{◌<◌};
ghost use Rattle.views.specs.Lent.{lent, SameArrays};
ghost use Rattle.plans.specs.Arrays.{Measured};
ghost use Rattle.machine.specs.Lent.{HandsListed, Hands};

use crate::carrying::{carry_out, lose};
use crate::numbers::standing;
use memory::{Arrays, Counts};
use messages::load_message;
use moves::handling::handled_move;
use plans::deliveries::{asked_effect, is_gone, message_step, receiver};
use records::counters::load_counts;
use refusals::{Refusal, message_refusal, places_refusal};
use runs::{Report, report_of};

// A message that is in the list; to a server that is not there, or that is stopped, it is lost.
fn hand_listed(
    arrays: &mut Arrays<'_>,
    cluster: Counts,
    index: u32,
    removes: bool,
) -> Result<Report, Refusal>
    requires { Measured cluster × (index < cluster.messages) }
    ensures same { SameArrays arrays }
    ensures hands { HandsListed (lent arrays) cluster index removes result }
{
    let message = load_message(arrays.queue, index as usize);
    let step = message_step(cluster, index, removes, message);
    let local = receiver(arrays.heads, arrays.slots, step);
    if is_gone(cluster, step, local) {
        return Ok(lose(arrays.counts, arrays.queue, arrays.payloads, cluster, step));
    }
    let servers = cluster.servers;
    let effect = asked_effect(
        arrays.slots,
        arrays.copies,
        arrays.texts,
        servers,
        message,
        local,
        step,
    );
    let next = handled_move(servers, step.server, effect.result, message, local);
    places_refusal(cluster, step.removes, next.sends)?;
    let told = carry_out(arrays, cluster, step, next, effect.table);
    Ok(report_of(told, step, effect))
}

// The message with this index is handed over; `copy` leaves it in the list. Most lines are such: where it is a call of its own, each of
// their reports is copied twice more.
#[inline(always)]
pub fn hand_line(arrays: &mut Arrays<'_>, index: u32, removes: bool) -> Result<Report, Refusal>
    ensures same { SameArrays arrays }
    ensures hands { Hands (lent arrays) index removes result }
{
    let cluster = load_counts(arrays.counts);
    if !standing(cluster) {
        return Err(Refusal::ClusterWrong);
    }
    message_refusal(cluster, index)?;
    hand_listed(arrays, cluster, index, removes)
}
