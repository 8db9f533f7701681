// The script player's commands: how a line is read, and how a letter is shown.
#![tactic(auto)]

pub mod command;
mod numbers;
pub mod parse;
pub mod show;
mod words;
