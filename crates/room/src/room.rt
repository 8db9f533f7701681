// The room: the server with what there is to report, and its peers.
ghost use Rattle.std.specs.Prelude.{◌≡◌, vec_len};

use crate::host::Host;
use crate::peer::Peer;

// How many clients there are.
pub const PEERS: u8 = 4;

#[derive(Drop)]
pub struct Room {
    pub(crate) host: Host,
    pub(crate) peers: Vec<Peer>,
    ghost four: { vec_len peers ≡ 4 },
}
