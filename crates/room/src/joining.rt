// A peer joins, for the first time or anew.
ghost use Rattle.std.specs.Prelude.{◌≡◌, ◌<◌, OnOk, is_some};
ghost use Rattle.room.specs.Scenes.{hosted, peer_of, stage, connected, ended, welcome, reconnected, arrived, joining, named};

use crate::event::Event;
use crate::host::Host;
use crate::peer::Peer;
use server::joined::Joined;
use std::alloc::AllocError;
use text::document::Document;

impl Peer {
    pub(crate) fn has_joined(&self) -> bool
        ensures { result ≡ is_some self.now.performed }
    {
        self.performed.is_some()
    }

    // Has the peer a connection?
    pub(crate) fn is_connected(&self, host: &Host) -> bool
        ensures { result ≡ connected (stage host.now self.now) }
    {
        self.has_joined() && host.server.is_connected(self.client.site())
    }

    // Has the peer joined, and no connection any more?
    pub(crate) fn has_ended(&self, host: &Host) -> bool
        ensures { result ≡ ended (stage host.now self.now) }
    {
        self.has_joined() && !self.is_connected(host)
    }

    // The connection of the peer's site ends, and the site gets another.
    fn connect(&self, host: &mut Host) -> Joined
        ensures answer { result ≡ welcome (peer_of self.now).site (hosted host.old) }
        ensures host { hosted host.new ≡ reconnected (peer_of self.now).site (hosted host.old) }
        ensures events { host.new.events ≡ host.old.events }
    {
        let site = self.client.site();
        host.server.end(site);
        // The site has just become free.
        host.server.join(site).unwrap()
    }

    // The peer begins with the server's text and nothing pending.
    fn begin(&mut self, joined: Joined, text: &Document)
        requires site { joined.site < 16 }
        requires room { text.now.room ≡ 65536 }
        ensures { peer_of self.new ≡ arrived joined.site text.now.letters joined.revision joined.count }
    {
        self.client
            .begin(joined.site, joined.revision, text)
            .unwrap();
        self.queue.clear();
        self.performed = Some(u64::from(joined.count));
    }

    // A connection that the peer has ends, and it gets another. What it performed and the history does not have is lost.
    pub(crate) fn join(&mut self, host: &mut Host) -> Result<(), AllocError>
        ensures { OnOk result (stage host.new self.new ≡ joining (stage host.old self.old)) }
    {
        let site = self.client.site();
        let joined = self.connect(host);
        if let Some(performed) = self.performed {
            let count = performed.saturating_sub(u64::from(joined.count));
            host.events.push(Event::Lost { site, count })?;
        }
        self.begin(joined, host.server.text());
        Ok(())
    }

    // A peer that is named joins first, if it has no connection.
    pub(crate) fn name(&mut self, host: &mut Host) -> Result<(), AllocError>
        ensures { OnOk result (stage host.new self.new ≡ named (stage host.old self.old)) }
    {
        if self.is_connected(host) {
            Ok(())
        } else {
            self.join(host)
        }
    }
}
