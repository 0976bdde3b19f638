// One line of a script on the lent arrays: judged, then carried out. What it leaves in them is said in crates/runs/specs, and
// what that stands for in specs/Meaning.antt.
#![tactic(auto)]

use refusals::Refusal;
use runs::{Report, Tally};

mod carrying;
mod cutting;
pub mod entry;
mod fresh;
mod handing;
mod numbers;
mod one_line;

// What a line came to or why it is refused, and the tally after it.
#[derive(Clone, Copy)]
pub struct Stepped {
    pub report: Result<Report, Refusal>,
    pub tally: Tally,
}
