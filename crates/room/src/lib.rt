// One server and four clients over queues that lose nothing: what a script plays.
#![tactic(auto)]

mod acting;
pub mod action;
pub mod command;
pub mod edit;
mod editing;
pub mod event;
pub mod host;
mod joining;
mod keeping;
mod opening;
pub mod peer;
pub mod play;
pub mod refusal;
pub mod room;
mod seeing;
mod taking;
mod theorems;
