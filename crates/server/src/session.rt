// What the server has of one client.
ghost use Rattle.std.specs.Prelude.{◌≤◌, vec_len, vec_capacity};

use operation::entry::Entry;

// How many entries a client may have before it that it has not seen.
pub const CONCURRENT_CAPACITY: usize = 4096;

// The highest revision that the site's client has said, none if the site has no client, and the entries that the client is not known to have seen.
// The list has its memory from the start, so that a push needs none.
#[derive(Drop)]
pub struct Session {
    pub(crate) said: Option<u32>,
    pub(crate) list: Vec<Entry>,
    ghost few: { vec_len list ≤ 4096 },
    ghost room: { 4096 ≤ vec_capacity list },
}
