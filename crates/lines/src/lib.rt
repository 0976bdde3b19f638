// A part of the input on the lent arrays: a line is read where it lies, run and told, as long as the output has room; bytes are kept only
// of a line that lies across parts or waits for room. What one line leaves is said in specs/Lines.antt, and what a part leaves in
// specs/Feeding.antt.
#![tactic(auto)]

use parse::Line;

pub mod feeding;
mod keeping;
mod reading;
mod running;

// A line that was read, and the place behind its line feed.
#[derive(Clone, Copy)]
pub struct Read {
    pub line: Line,
    pub next: usize,
}
