// The rules of rounds, and of messages by their kind, on the structs of crate `server`.
#![tactic(auto)]

pub mod kinds;
pub mod opening;
pub mod replies;
