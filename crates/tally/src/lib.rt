// The tally of messages is added to: what a call counts is a change, which is added to the tally by value, or to one that is lent.
#![tactic(auto)]

ghost use Rattle.std.specs.Prelude.{◌≡◌};
ghost use Rattle.tally.specs.Sums.{tally_sum};

use runs::Tally;

// The tally with a change added, count by count.
pub fn sum(tally: Tally, change: Tally) -> Tally
    ensures { result ≡ tally_sum tally change }
{
    Tally {
        sent: tally.sent.wrapping_add(change.sent),
        copied: tally.copied.wrapping_add(change.copied),
        delivered: tally.delivered.wrapping_add(change.delivered),
        lost: tally.lost.wrapping_add(change.lost),
        flight: tally.flight.wrapping_add(change.flight),
    }
}

// What has to be added to one tally to come to another.
pub fn change(before: Tally, after: Tally) -> Tally
    ensures { tally_sum before result ≡ after }
{
    Tally {
        sent: after.sent.wrapping_sub(before.sent),
        copied: after.copied.wrapping_sub(before.copied),
        delivered: after.delivered.wrapping_sub(before.delivered),
        lost: after.lost.wrapping_sub(before.lost),
        flight: after.flight.wrapping_sub(before.flight),
    }
}

// The lent tally takes a change.
pub fn add(tally: &mut Tally, change: Tally)
    ensures { tally.new ≡ tally_sum tally.old change }
{
    *tally = sum(*tally, change);
}
