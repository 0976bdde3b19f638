// The records of a cluster in its lent arrays, loaded and stored by value: counts, heads of servers, slots, and the words of calls.
// Where each field lies is said in crates/memory/specs/Layout.antt.
#![tactic(auto)]

pub mod counters;
pub mod heads;
pub mod slots;
pub mod words;
