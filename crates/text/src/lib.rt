// Texts, and operations on them.
#![tactic(auto)]

pub mod document;
mod gap;
mod lent;
pub mod refusal;
