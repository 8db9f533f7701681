// The server of a text that several write at once.
#![tactic(auto)]

mod entries;
pub mod joined;
mod joining;
pub mod refusal;
mod seating;
pub mod server;
pub mod session;
mod sessions;
mod starting;
mod taking;
