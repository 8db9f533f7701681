// The server takes what is under way from a peer.
ghost use Rattle.std.specs.Prelude.{◌≡◌, ◌≢◌, ◌++◌, IfOk, OnOk};
ghost use Rattle.room.specs.Scenes.{hosted, stage, refusal_of, refused_by, is_accepted, server_refusal, server_after, taking, taking_all};

use crate::event::Event;
use crate::host::Host;
use crate::keeping::keep;
use crate::peer::Peer;
use network::message::Message;
use server::refusal::Refusal;
use std::alloc::AllocError;

impl Host {
    // The server takes or hears what has come from a site. What it takes is in the journal and stays through a crash before anything else happens.
    fn accept(&mut self, site: u8, message: Message) -> Result<(), Refusal>
        ensures answer { result ≢ Err Refusal.OutOfMemory → refusal_of result ≡ server_refusal site message (hosted self.old) }
        ensures host { result ≢ Err Refusal.OutOfMemory → hosted self.new ≡ server_after site message (hosted self.old) }
        ensures events { self.new.events ≡ self.old.events }
    {
        match message {
            Message::Operation(submission) => {
                let entry = self.server.take(submission)?;
                keep(&mut self.journal, entry)?;
                Ok(())
            }
            Message::Revision(revision) => self.server.hear(site, revision),
        }
    }

    // The same, with a refusal reported. The answer is whether there was none.
    fn receive(&mut self, site: u8, message: Message) -> Result<bool, AllocError>
        ensures answer { IfOk result (λ b. b ≡ is_accepted (server_refusal site message (hosted self.old))) }
        ensures host { OnOk result (hosted self.new ≡ server_after site message (hosted self.old)) }
        ensures events { OnOk result (self.new.events.items ≡ self.old.events.items ++ refused_by (server_refusal site message (hosted self.old))) }
    {
        match self.accept(site, message) {
            Ok(()) => Ok(true),
            Err(Refusal::OutOfMemory) => Err(AllocError),
            Err(refusal) => {
                self.events.push(Event::Refused(refusal.into()))?;
                Ok(false)
            }
        }
    }
}

// Two loops, since they stop at different messages and end differently: one with a closure for each difference is longer.
impl Peer {
    // The server takes the peer's oldest operation, with any revision before it.
    #[tactic(auto, unfolding(crate::specs::Scenes::taking_until))]
    pub(crate) fn take(&mut self, host: &mut Host) -> Result<(), AllocError>
        ensures { OnOk result (stage host.new self.new ≡ taking (stage host.old self.old)) }
    {
        while let Some(message) = self.queue.pop_front() {
            if !host.receive(self.client.site(), message)? || message.is_operation() {
                return Ok(());
            }
        }
        host.events.push(Event::Nothing)?;
        Ok(())
    }

    // The server takes all that is under way from the peer, as long as nothing is refused.
    #[tactic(auto, unfolding(crate::specs::Scenes::taking_until))]
    pub(crate) fn take_all(&mut self, host: &mut Host) -> Result<(), AllocError>
        ensures { OnOk result (stage host.new self.new ≡ taking_all (stage host.old self.old)) }
    {
        while let Some(message) = self.queue.pop_front() {
            if !host.receive(self.client.site(), message)? {
                break;
            }
        }
        Ok(())
    }
}
