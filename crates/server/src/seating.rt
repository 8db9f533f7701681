// The sessions of all sites, and the history, gone through one by one.
ghost use Rattle.std.specs.Prelude.{◌≡◌, ℕ, All, IfOk, if◌then◌else◌, vec_len, nat_eq};
ghost use Rattle.server.specs.Sessions.{free, told};
ghost use Rattle.server.specs.Seats.{seat_of, seats_in, bounded};
ghost use Rattle.server.specs.Servers.{seats, history_of, highest_free, site_count};

use crate::server::{SITES, Server};
use crate::session::Session;
use operation::entry::Entry;
use std::alloc::{AllocError, Global};

// Every site is free.
pub(crate) fn free_sessions(heap: Global) -> Result<Vec<Session>, AllocError>
    ensures { IfOk result (λ v. (vec_len v ≡ 16) × All (λ s. seat_of s ≡ free) v.items) }
{
    (0..SITES).map(|_| Session::new(heap)).try_collect(heap)
}

// Tells every client but that of site `from` of an entry.
#[tactic(auto, using(crate::proofs::Told::told_all))]
pub(crate) fn announce(sessions: &mut [Session], from: usize, entry: Entry)
    ensures { (i : ℕ) → seats_in sessions.new i ≡ (if nat_eq i from then seats_in sessions.old i else bounded (told entry (seats_in sessions.old i))) }
{
    for (i, session) in sessions.iter_mut().enumerate() {
        if i != from {
            session.tell(entry);
        }
    }
}

impl Server {
    // The highest site that is free.
    pub(crate) fn highest_free(&self) -> Option<u8>
        ensures { result ≡ highest_free 16 (seats self.now) }
    {
        (0..SITES).rev().find(|&site| !self.is_connected(site))
    }

    // How many operations of the history are of the site: never more than 32 bits hold. A sum has no branch, and where
    // sites are mixed `filter` and `count` take five times as long.
    pub(crate) fn count_by(&self, site: u8) -> u32
        ensures { result ≡ site_count site (history_of self.now) }
    {
        self.history
            .iter()
            .map(|op| u32::from(op.site() == site))
            .sum()
    }
}
