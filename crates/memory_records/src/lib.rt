// The records of a cluster in two lent arrays, loaded and stored by value: counts, heads of servers, slots, and the words of calls.
// Where each array is cut is said in crates/memory_regions/specs, where each field lies in its region in crates/memory/specs/Layout.antt.
#![tactic(auto)]

pub mod counters;
pub mod heads;
pub mod slots;
pub mod words;
