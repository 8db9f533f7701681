// How a room begins.
ghost use Rattle.std.specs.Prelude.{◌≡◌, ◌<◌, IfOk};
ghost use Rattle.room.specs.Scenes.{hosted, peer_of, opening, waiting};

use crate::host::Host;
use crate::keeping::start;
use crate::peer::Peer;
use client::client::{Client, PENDING_CAPACITY};
use journal::journal::Journal;
use journal::memory::Memory;
use std::alloc::{AllocError, Global};
use std::collections::VecDeque;
use text::document::{Document, RECORD_CAPACITY};

impl Host {
    // The server with an empty text and history, and nothing to report.
    pub(crate) fn new(heap: Global) -> Result<Host, AllocError>
        ensures server { IfOk result (λ h. hosted h ≡ opening.server) }
        ensures events { IfOk result (λ h. h.events.items ≡ opening.events) }
    {
        let mut journal = Journal::new(Memory::new(heap));
        let server = start(heap, &mut journal)?;
        Ok(Host {
            server,
            journal,
            events: Vec::new(heap),
        })
    }
}

impl Peer {
    // A peer that has not joined.
    pub(crate) fn new(heap: Global, site: u8) -> Result<Peer, AllocError>
        requires { site < 16 }
        ensures { IfOk result (λ w. peer_of w ≡ waiting site) }
    {
        let text = Document::with_capacity(heap, RECORD_CAPACITY + PENDING_CAPACITY)?;
        Ok(Peer {
            client: Client::new(heap, site, 0, text)?,
            queue: VecDeque::new(heap),
            performed: None,
        })
    }
}
