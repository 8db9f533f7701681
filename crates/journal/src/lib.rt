// The server's journal: a file of records, which has what the server has put in its history through any crash.
#![tactic(auto)]

pub mod counts;
pub mod disk;
pub mod error;
pub mod journal;
pub mod memory;
mod opening;
pub mod record;
pub mod recovered;
pub mod refusal;
mod replay;
pub mod store;
mod tail;
mod theorems;
