// What a move leaves of its server in the two lent arrays: contents, head and slot.
#![tactic(auto)]

pub mod contents;
pub mod locals;
