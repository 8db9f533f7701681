// The server: its text, the history of all operations, and what it has of the client of each site.
ghost use Rattle.std.specs.Prelude.{◌≡◌, ◌≤◌, vec_len};

use crate::session::Session;
use operation::operation::Operation;
use text::document::Document;

// How many sites there are: a client has a site of its own.
pub const SITES: u8 = 16;

#[derive(Drop)]
pub struct Server {
    pub(crate) text: Document,
    pub(crate) history: Vec<Operation>,
    pub(crate) sessions: Vec<Session>,
    ghost sixteen: { vec_len sessions ≡ 16 },
    ghost short: { vec_len history ≤ 4294967294 },
}
