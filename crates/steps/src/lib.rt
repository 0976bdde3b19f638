// What a move leaves in the lent arrays of its server: contents, head and slot.
#![tactic(auto)]

pub mod contents;
pub mod locals;
