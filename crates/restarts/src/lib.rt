// What a server keeps that is stopped in the middle of what a message makes it store, and what it has when it comes back
// (RULES, Restarts): on its head and the slot of one bucket, by value.
#![tactic(auto)]

pub mod cuts;
pub mod starts;
