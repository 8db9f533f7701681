// Any number of clients and one server: the messages between them, and the theorems over whole runs.
#![tactic(auto)]

pub mod message;
mod theorems;
