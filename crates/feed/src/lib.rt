// A script's bytes in parts of any size, and its end, on lent arrays. What a call leaves is said in specs/Entry.antt, and what all of
// them print in specs/Whole.antt.
#![tactic(auto)]

use runs::Tally;

pub mod entry;

// What a part of the input adds to the tally, and how many of its bytes were taken.
#[derive(Clone, Copy)]
pub struct FedPart {
    pub change: Tally,
    pub taken: usize,
}

// What the end of the input adds to the tally, and how many bytes were written.
#[derive(Clone, Copy)]
pub struct FedEnd {
    pub change: Tally,
    pub written: usize,
}
