// One action, with the server and one peer.
ghost use Rattle.std.specs.Prelude.{◌≡◌, OnOk};
ghost use Rattle.room.specs.Scenes.{stage, acting};

use crate::action::Action;
use crate::host::Host;
use crate::peer::Peer;
use std::alloc::AllocError;

// An action is data, from a script or from settling: of a closure in its place a contract could only say what the closure's own says.
impl Peer {
    // One action; a peer that a script names joins first.
    pub(crate) fn act(&mut self, host: &mut Host, action: Action) -> Result<(), AllocError>
        ensures { OnOk result (stage host.new self.new ≡ acting action (stage host.old self.old)) }
    {
        match action {
            Action::Edit(edit) => {
                self.name(host)?;
                self.perform(host, edit)
            }
            Action::Take => {
                self.name(host)?;
                self.take(host)
            }
            Action::See => {
                self.name(host)?;
                self.see(host)
            }
            Action::Join => self.join(host),
            Action::Rejoin if self.has_joined() => self.name(host),
            Action::TakeAll if self.is_connected(host) => self.take_all(host),
            Action::SeeAll if self.is_connected(host) => self.see_all(host),
            // Settling does nothing with a peer that has not joined, or has no connection.
            Action::Rejoin | Action::TakeAll | Action::SeeAll => Ok(()),
        }
    }
}
