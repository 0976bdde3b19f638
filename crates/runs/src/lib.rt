// What a line comes to: its report or why it is refused, and the tally after it. What a line leaves in the lent arrays is said in
// specs/Runs.antt, and what that stands for in specs/Meaning.antt.
#![tactic(auto)]

ghost use Rattle.std.specs.Prelude.{◌≡◌, ◌≤◌};
ghost use Rattle.memory.specs.Layout.{message_room};
ghost use Rattle.runs.specs.Runs.{next_counts, bare_report};
ghost use Rattle.runs.specs.Carrying.{carried_report};
ghost use Rattle.runs.specs.Meaning.{tally_after};

use memory::Counts;
use plans::Step;
use plans::parts::no_effect;
use server::Effect;

// What a line that is accepted came to: how many answers it wrote; what it adds to the tally; the messages in flight after it; the effect of
// the call that it answers, with the data of `value` and `keys`.
#[derive(Clone, Copy)]
pub struct Report {
    pub effect: Effect,
    pub answers: u32,
    pub sent: u32,
    pub copied: u32,
    pub delivered: u32,
    pub lost: u32,
    pub messages: u32,
}

// The tally of messages: sent, copied, delivered, lost, in flight.
#[repr(C)]
#[derive(Clone, Copy)]
pub struct Tally {
    pub sent: u32,
    pub copied: u32,
    pub delivered: u32,
    pub lost: u32,
    pub flight: u32,
}

// What a move that is carried out tells: how many answers were written, how many messages sent, and how many are in flight.
#[derive(Clone, Copy)]
pub struct Told {
    pub answers: u32,
    pub sent: u32,
    pub messages: u32,
}

// One more accepted line.
pub fn next_counts(cluster: Counts, messages: usize, calls: u32) -> Counts
    requires { messages ≤ message_room }
    ensures { result ≡ next_counts cluster messages calls }
{
    Counts {
        messages: messages as u32,
        lines: cluster.lines.wrapping_add(1),
        calls,
        ..cluster
    }
}

// What a move that is carried out came to.
pub fn report_of(told: Told, step: Step, effect: Effect) -> Report
    ensures { result ≡ carried_report told step effect }
{
    Report {
        effect,
        answers: told.answers,
        sent: told.sent,
        copied: step.copied,
        delivered: step.delivered,
        lost: step.lost,
        messages: told.messages,
    }
}

// The report of a line that sends and answers nothing.
pub fn bare_report() -> Report
    ensures { result ≡ bare_report }
{
    Report {
        effect: no_effect(),
        answers: 0,
        sent: 0,
        copied: 0,
        delivered: 0,
        lost: 0,
        messages: 0,
    }
}

// The tally after a line: a refused one leaves it as it was, whatever says why it is refused.
#[tactic(auto, unfolding(crate::specs::Meaning::tally_after))]
pub fn tally_after<E: Copy>(tally: Tally, told: Result<Report, E>) -> Tally
    ensures { result ≡ tally_after tally told }
{
    match told {
        Ok(report) => Tally {
            sent: tally.sent.wrapping_add(report.sent),
            copied: tally.copied.wrapping_add(report.copied),
            delivered: tally.delivered.wrapping_add(report.delivered),
            lost: tally.lost.wrapping_add(report.lost),
            flight: report.messages,
        },
        Err(_) => tally,
    }
}
