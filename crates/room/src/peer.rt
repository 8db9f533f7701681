// A peer: a client, and what is under way from it to the server.
ghost use Rattle.std.specs.Prelude.{◌≡◌, ◌<◌};
ghost use Rattle.client.specs.Clients.{client_of};

use client::client::Client;
use network::message::Message;
use std::collections::VecDeque;

#[derive(Drop)]
pub struct Peer {
    pub(crate) client: Client,
    pub(crate) queue: VecDeque<Message>,
    // How many operations of its site the peer knows of: those that the history had when it joined, and its own since.
    // None if it has not joined.
    pub(crate) performed: Option<u64>,
    ghost space: { (client_of client).room ≡ 65792 },
    ghost known: { (client_of client).site < 16 },
}
