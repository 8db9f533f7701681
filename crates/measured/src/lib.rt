// The server and a client as a static library: another language plays them by rows of numbers, to compare and to measure them.
#![tactic(auto)]

mod client_end;
pub mod datagram_row;
pub mod event;
mod line;
mod often;
mod playing;
pub mod row;
mod server_end;
