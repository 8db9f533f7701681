// One client of a text that several edit at once.
#![tactic(auto)]

pub mod client;
pub mod editing;
pub mod kind;
mod pending;
pub mod refusal;
pub mod seeing;
