// A peer types or strikes.
ghost use Rattle.std.specs.Prelude.{◌≡◌, IsSome, OnOk};
ghost use Rattle.client.specs.Clients.{edited, edit_answer};
ghost use Rattle.room.specs.Scenes.{peer_of, stage, operation_of, with_replica, editing};

use crate::edit::Edit;
use crate::event::Event;
use crate::host::Host;
use crate::peer::Peer;
use client::refusal::Refusal;
use network::message::Message;
use operation::entry::Submission;
use std::alloc::AllocError;

impl Peer {
    fn apply(&mut self, edit: Edit) -> Result<Submission, Refusal>
        ensures answer { result ≡ edit_answer 65792 (operation_of (peer_of self.old).site edit) (peer_of self.old).replica }
        ensures peer { peer_of self.new ≡ with_replica (edited 65792 (operation_of (peer_of self.old).site edit) (peer_of self.old).replica) (peer_of self.old) }
    {
        match edit {
            Edit::Insert { place, letter } => self.client.insert(place, letter),
            Edit::Delete { place } => self.client.delete(place),
        }
    }

    // The peer, which has joined, performs an edit, and its submission is under way; or the refusal is reported.
    pub(crate) fn perform(&mut self, host: &mut Host, edit: Edit) -> Result<(), AllocError>
        requires { IsSome self.old.performed }
        ensures { OnOk result (stage host.new self.new ≡ editing edit (stage host.old self.old)) }
    {
        match self.apply(edit) {
            Ok(submission) => {
                self.performed = self.performed.map(|count| count.saturating_add(1));
                self.queue.push_back(Message::Operation(submission))?;
            }
            Err(refusal) => host.events.push(Event::Refused(refusal.into()))?,
        }
        Ok(())
    }
}
