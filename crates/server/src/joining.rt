// Clients come and go, and say what they have seen.
ghost use Rattle.std.specs.Prelude.{◌≡◌, length, is_some, unwrap_or};
ghost use Rattle.server.specs.Sessions.{free};
ghost use Rattle.server.specs.Servers.{text_of, seats, history_of, state_of, with_seat, Leaves, entry_at, bad_revision, hear_answer, hear_after, site_for, join_answer, join_after};

use crate::joined::Joined;
use crate::refusal::Refusal;
use crate::server::{SITES, Server};
use operation::entry::Entry;
use text::document::Document;

impl Server {
    // The text after the whole history, if it was empty at first.
    pub fn text(&self) -> &Document
        ensures { result.now ≡ text_of self.now }
    {
        &self.text
    }

    // The highest revision that the site's client has said, if the site has a client.
    fn said(&self, site: u8) -> Option<u32>
        ensures connected { is_some result ≡ (seats self.now site).connected }
        ensures said { unwrap_or result 0 ≡ (seats self.now site).said }
    {
        self.sessions.get(usize::from(site))?.said
    }

    // Has the site a client?
    pub fn is_connected(&self, site: u8) -> bool
        ensures { result ≡ (seats self.now site).connected }
    {
        self.said(site).is_some()
    }

    // How many entries the history has: never more than 32 bits hold, so the cast is plainer than a conversion that can fail.
    pub fn revision(&self) -> u32
        ensures { result ≡ length (history_of self.now) }
    {
        self.history.len() as u32
    }

    // The entry at a place of the history. The place is cast, since std has no `From` of a `u32` for a `usize`.
    pub fn entry(&self, place: u32) -> Option<Entry>
        ensures { result ≡ entry_at place (history_of self.now) }
    {
        let op = *self.history.get(place as usize)?;
        Some(Entry { place, op })
    }

    // Ends the connection of the site's client, if it has one.
    pub fn end(&mut self, site: u8)
        ensures { Leaves self.old self.new (with_seat site free (state_of self.old)) }
    {
        if let Some(session) = self.sessions.get_mut(usize::from(site)) {
            session.close();
        }
    }

    // Can the client of the site not have the revision? It is above the history, or below what the client said before.
    pub(crate) fn is_bad(&self, site: u8, revision: u32) -> bool
        ensures { result ≡ bad_revision (length (history_of self.now)) revision (seats self.now site) }
    {
        revision > self.revision() || self.said(site).is_some_and(|said| revision < said)
    }

    // The client of the site says that it has seen the history up to `revision`. A revision that it cannot have ends the connection.
    pub fn hear(&mut self, site: u8, revision: u32) -> Result<(), Refusal>
        ensures answer { result ≡ hear_answer site revision (state_of self.old) }
        ensures after { Leaves self.old self.new (hear_after site revision (state_of self.old)) }
    {
        if !self.is_connected(site) {
            return Err(Refusal::NotConnected);
        }
        if self.is_bad(site, revision) {
            self.end(site);
            return Err(Refusal::BadRevision);
        }
        self.sessions[usize::from(site)].hear(revision);
        Ok(())
    }

    // The site for a client that wishes for `wanted`: that one if it is free, else the highest that is.
    fn choose(&self, wanted: u8) -> Option<u8>
        ensures { result ≡ site_for wanted (seats self.now) }
    {
        if wanted < SITES && !self.is_connected(wanted) {
            return Some(wanted);
        }
        self.highest_free()
    }

    // A client joins, or is refused where every site has a client.
    pub fn join(&mut self, wanted: u8) -> Result<Joined, Refusal>
        ensures answer { result ≡ join_answer (site_for wanted (seats self.old)) (state_of self.old) }
        ensures after { Leaves self.old self.new (join_after (site_for wanted (seats self.old)) (state_of self.old)) }
    {
        let Some(site) = self.choose(wanted) else {
            return Err(Refusal::SitesInUse);
        };
        let revision = self.revision();
        let count = self.count_by(site);
        self.sessions[usize::from(site)].open(revision);
        Ok(Joined {
            site,
            revision,
            count,
        })
    }
}
