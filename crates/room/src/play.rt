// The room plays commands, one after another.
ghost use Rattle.std.specs.Prelude.{◌≡◌, IfOk, OnOk};
ghost use Rattle.text.specs.Texts.{numbers};
ghost use Rattle.room.specs.Scenes.{room_state, acting, opening, told, with_each, round, scene, any_ended, settling, crashing, playing};
ghost use Rattle.room.specs.Reached.{Reached, Keeps, Agrees};

use crate::action::Action;
use crate::command::Command;
use crate::event::Event;
use crate::host::Host;
use crate::peer::Peer;
use crate::room::{PEERS, Room};
use std::alloc::{AllocError, Global};

impl Room {
    // Nobody has joined, and the text is empty. This shows a net that is reached, of which one record is promised.
    pub fn new(heap: Global) -> Result<Room, AllocError>
        ensures state { IfOk result (λ m. room_state m ≡ opening) }
        ensures reached { IfOk result (λ m. Reached (room_state m)) }
    {
        let host = Host::new(heap)?;
        let mut peers = Vec::new(heap);
        for site in 0..PEERS {
            peers.push(Peer::new(heap, site)?)?;
        }
        Ok(Room { host, peers })
    }

    // What there is to report, the oldest first.
    pub fn events(&self) -> &[Event]
        ensures { result.now ≡ (room_state self.now).events }
    {
        self.host.events.as_slice()
    }

    // It has been reported.
    pub fn clear_events(&mut self)
        ensures state { room_state self.new ≡ told (room_state self.old) }
        ensures reached { Reached (room_state self.old) → Reached (room_state self.new) }
    {
        self.host.events.clear();
    }

    // The letters of the server's text.
    pub fn letters(&self) -> &[u32]
        ensures { result.now ≡ numbers (room_state self.now).server.text }
    {
        self.host.server.text().letters()
    }

    // Has this peer joined?
    pub fn has_joined(&self, peer: u8) -> bool
        ensures { result ≡ (scene peer (room_state self.now)).peer.joined }
    {
        self.peers
            .get(usize::from(peer))
            .is_some_and(|peer| peer.has_joined())
    }

    // The letters of a peer's text; of one that there is not, none. One that has not joined has an empty text, so this is no `Option`.
    pub fn letters_of(&self, peer: u8) -> &[u32]
        ensures { result.now ≡ numbers (scene peer (room_state self.now)).peer.replica.text }
    {
        self.peers
            .get(usize::from(peer))
            .map_or(&[], |peer| peer.client.text().letters())
    }

    // Something is done with all peers, by number.
    fn ask_all(&mut self, action: Action) -> Result<(), AllocError>
        ensures { OnOk result (room_state self.new ≡ with_each 4 (acting action) (room_state self.old)) }
    {
        let host = &mut self.host;
        for peer in self.peers.iter_mut() {
            peer.act(host, action)?;
        }
        Ok(())
    }

    // Whoever has no connection joins anew, all is taken, and all see all.
    fn round(&mut self) -> Result<(), AllocError>
        ensures { OnOk result (room_state self.new ≡ round (room_state self.old)) }
    {
        self.ask_all(Action::Rejoin)?;
        self.ask_all(Action::TakeAll)?;
        self.ask_all(Action::SeeAll)
    }

    fn any_ended(&self) -> bool
        ensures { result ≡ any_ended 4 (room_state self.now) }
    {
        self.peers.iter().any(|peer| peer.has_ended(&self.host))
    }

    // A second round, where a connection has ended in the first, finds nothing left to take. Then all who have joined show the server's text, and nothing is pending.
    fn settle(&mut self) -> Result<(), AllocError>
        ensures state { OnOk result (room_state self.new ≡ settling (room_state self.old)) }
        ensures agree { OnOk result (Agrees (room_state self.old) (room_state self.new)) }
    {
        self.round()?;
        if self.any_ended() {
            self.round()
        } else {
            Ok(())
        }
    }

    // The server starts again from what its journal has kept.
    fn crash(&mut self) -> Result<(), AllocError>
        ensures { OnOk result (room_state self.new ≡ crashing (room_state self.old)) }
    {
        self.host.crash()
    }

    // Plays one command. A room that is reached goes on by steps of this command to one that is; and after settling all agree.
    // Where memory is wanting nothing is promised of the room any more.
    pub fn play(&mut self, command: Command) -> Result<(), AllocError>
        ensures state { OnOk result (room_state self.new ≡ playing command (room_state self.old)) }
        ensures reached { OnOk result (Keeps command (room_state self.old) (room_state self.new)) }
        ensures agree { OnOk result (command ≡ Command.Settle → Agrees (room_state self.old) (room_state self.new)) }
    {
        match command {
            Command::Ask { peer, action } => match self.peers.get_mut(usize::from(peer)) {
                Some(peer) => peer.act(&mut self.host, action),
                None => Ok(()),
            },
            Command::Crash => self.crash(),
            Command::Settle => self.settle(),
        }
    }
}
