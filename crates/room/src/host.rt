// The server with its journal, and what there is to report.
ghost use Rattle.std.specs.Prelude.{◌≡◌};
ghost use Rattle.server.specs.Servers.{room_of, state_of};
ghost use Rattle.room.specs.Kept.{Follows};

use crate::event::Event;
use journal::journal::Journal;
use journal::memory::Memory;
use server::server::Server;

#[derive(Drop)]
pub struct Host {
    pub(crate) server: Server,
    pub(crate) journal: Journal<Memory>,
    // The oldest first.
    pub(crate) events: Vec<Event>,
    ghost space: { room_of server ≡ 65536 },
    ghost kept: { Follows journal (state_of server) },
}
