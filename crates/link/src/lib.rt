// What crosses a bad line: messages, packets and acknowledgements as bytes, the numbers by which packets are taken once and in
// order, and the rules for connections.
#![tactic(auto)]

mod blocks;
mod checksum;
pub mod client_end;
pub mod datagram;
pub mod entry_bytes;
mod fields;
pub mod hexadecimal;
pub mod letters;
pub mod message;
mod outbox;
pub mod reading;
mod receiver;
pub mod refusal;
pub mod server_end;
mod theorems;
pub mod window;
pub mod writing;
