// A peer sees entries of the history.
ghost use Rattle.std.specs.Prelude.{◌≡◌, IfOk, OnOk};
ghost use Rattle.room.specs.Scenes.{stage, takes_entry, seeing_entry, seeing, seeing_all};

use crate::event::Event;
use crate::host::Host;
use crate::peer::Peer;
use client::client::Client;
use network::message::Message;
use operation::entry::Entry;
use std::alloc::AllocError;
use std::mem;

impl Peer {
    // The peer sees this entry, and sends its revision where that is due; or the refusal is reported. The answer is whether it was seen.
    fn see_entry(&mut self, host: &mut Host, entry: Entry) -> Result<bool, AllocError>
        ensures answer { IfOk result (λ b. b ≡ takes_entry (Some entry) (stage host.old self.old)) }
        ensures after { OnOk result (stage host.new self.new ≡ seeing_entry (Some entry) (stage host.old self.old)) }
    {
        // Seeing takes the client, so another stands in its place meanwhile.
        let stand_in = Client::stand_in(*self.queue.allocator());
        match mem::replace(&mut self.client, stand_in).see(entry) {
            Ok(client) => {
                self.client = client;
                if let Some(revision) = self.client.report() {
                    self.queue.push_back(Message::Revision(revision))?;
                }
                Ok(true)
            }
            Err((client, refusal)) => {
                self.client = client;
                host.events.push(Event::Refused(refusal.into()))?;
                Ok(false)
            }
        }
    }

    // The peer sees the next entry, if there is one.
    pub(crate) fn see(&mut self, host: &mut Host) -> Result<(), AllocError>
        ensures { OnOk result (stage host.new self.new ≡ seeing (stage host.old self.old)) }
    {
        match host.server.entry(self.client.revision()) {
            Some(entry) => {
                self.see_entry(host, entry)?;
            }
            None => host.events.push(Event::Nothing)?,
        }
        Ok(())
    }

    // The peer sees all that there is, as long as nothing is refused.
    pub(crate) fn see_all(&mut self, host: &mut Host) -> Result<(), AllocError>
        ensures { OnOk result (stage host.new self.new ≡ seeing_all (stage host.old self.old)) }
    {
        while let Some(entry) = host.server.entry(self.client.revision()) {
            if !self.see_entry(host, entry)? {
                break;
            }
        }
        Ok(())
    }
}
