// What is printed for a line, from the machine's report of it (RULES, Output).
#![tactic(auto)]

ghost use Rattle.std.specs.Prelude.{◌≤◌, ◌+◌, length, IfOk};
ghost use Rattle.model.specs.Measures.{most_answers};
ghost use Rattle.model.specs.Print.{outcome_text, tally_text};
ghost use Rattle.memory.specs.Lent.{was, is};
ghost use Rattle.runs.specs.Meaning.{outcome_by, tally_in};
ghost use Rattle.print.specs.Printed.{Printed};
ghost use Rattle.print.specs.Room.{line_room, tally_room};
ghost use Rattle.output.specs.Told.{Told, report_text};

use crate::answer_list::put_answers;
use memory::AnswerWords;
use print::other_lines::{put_refusal, put_tally};
use refusals::Numbered;
use runs::{Report, Tally};

mod answer_list;

// The refusal, which is told by its number, or the answers.
pub fn put_outcome<E: Numbered>(
    out: &mut [u8],
    at: usize,
    line: u32,
    told: Result<Report, E>,
    answers: &AnswerWords,
) -> usize
    requires { (at + line_room ≤ length out.old) × IfOk told (λ report. report.answers ≤ most_answers) }
    ensures { Told (outcome_text line (outcome_by E.told_number told answers.now)) (was out) at (is out) result }
{
    match told {
        Err(refusal) => put_refusal(out, at, line, refusal.told_number()),
        Ok(report) => put_report(out, at, report, answers),
    }
}

// The answers of a line that is accepted.
fn put_report(out: &mut [u8], at: usize, report: Report, answers: &AnswerWords) -> usize
    requires { (at + line_room ≤ length out.old) × (report.answers ≤ most_answers) }
    ensures { Told (report_text report answers.now) (was out) at (is out) result }
{
    if report.answers == 0 {
        return at;
    }
    put_answers(
        out,
        at,
        report.answers as usize,
        answers,
        report.effect.value,
        report.effect.table,
    )
}

// The tally, after the last line.
pub fn put_end(out: &mut [u8], at: usize, tally: Tally) -> usize
    requires { at + tally_room ≤ length out.old }
    ensures { Printed (tally_text (tally_in tally)) (was out) at (is out) result × (result ≤ at + tally_room) }
{
    put_tally(
        out,
        at,
        tally.sent,
        tally.copied,
        tally.delivered,
        tally.lost,
        tally.flight,
    )
}
