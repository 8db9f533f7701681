// One client: its copy of the text, how much of the history it has seen, and its operations that have not come back.
ghost use Rattle.std.specs.Prelude.{◌≡◌, ◌≤◌, length, [], IfOk, IsOk};
ghost use Rattle.std.specs.Option.{ForSome, ForNone};

use crate::pending::Pending;
use std::alloc::{AllocError, Global};
use text::document::Document;
use text::refusal::Refusal as TextRefusal;

// How many operations can be pending.
pub const PENDING_CAPACITY: usize = 256;

// The pending ones are in memory of their own, so that little is moved where the client is handed on; and the site stands beside the
// revision, since a gap of seven bytes is slow to move. Only a client whose text is empty and has no room has no list of pending ones.
#[derive(Drop)]
pub struct Client {
    pub(crate) text: Document,
    pub(crate) revision: u32,
    pub(crate) site: u8,
    pub(crate) pending: Option<Box<Pending>>,
    ghost own: { ForSome pending (λ b. b.value.site ≡ site) },
    ghost bare: { ForNone pending (text ≡ record { letters = []; room = 0 }) },
}

impl Clone for Client {
    ghost use Rattle.client.specs.Clients.{client_of};

    ghost is_clone = { λ c d. client_of d ≡ client_of c };

    fn clone(&self) -> Result<Client, AllocError> {
        Ok(Client {
            text: self.text.clone()?,
            revision: self.revision,
            site: self.site,
            pending: self.pending.clone()?,
        })
    }
}

impl Client {
    ghost use Rattle.text.specs.Texts.{refused};
    ghost use Rattle.text.specs.Documents.{copy_refusal};
    ghost use Rattle.client.specs.Clients.{client_of, text_of, newcomer, begun};

    // A client with this text that has seen the first `revision` entries of the history and has typed nothing.
    pub fn new(heap: Global, site: u8, revision: u32, text: Document) -> Result<Client, AllocError>
        ensures { IfOk result (λ c. client_of c ≡ newcomer site revision text) }
    {
        Ok(Client {
            site,
            text,
            revision,
            pending: Some(Box::new(heap, Pending::new(site))?),
        })
    }

    // A client that needs no memory, and whose text has no room. It can stand where another is, while that sees an entry.
    pub fn stand_in(heap: Global) -> Client
        ensures { client_of result ≡ newcomer 0 0 (record { letters = []; room = 0 }) }
    {
        Client {
            site: 0,
            text: Document::new(heap),
            revision: 0,
            pending: None,
        }
    }

    // Begins anew, with a copy of that text, or refuses it where there is no room, and changes nothing. Where there is as much room as
    // in that text it is never refused.
    pub fn begin(&mut self, site: u8, revision: u32, text: &Document) -> Result<(), TextRefusal>
        ensures answer { refused result ≡ copy_refusal (client_of self.old).room text.now.letters }
        ensures after { client_of self.new ≡ begun site revision text.now.letters (client_of self.old) }
        ensures fits { text.now.room ≤ (client_of self.old).room → IsOk result }
    {
        self.text.copy_from(text)?;
        self.site = site;
        self.revision = revision;
        if let Some(pending) = &mut self.pending {
            **pending = Pending::new(site);
        }
        Ok(())
    }

    pub fn site(&self) -> u8
        ensures { result ≡ (client_of self.now).site }
    {
        self.site
    }

    // How many entries of the history it has seen.
    pub fn revision(&self) -> u32
        ensures { result ≡ (client_of self.now).replica.revision }
    {
        self.revision
    }

    pub fn pending_len(&self) -> usize
        ensures { result ≡ length (client_of self.now).replica.pending }
    {
        self.pending.as_ref().map_or(0, |pending| pending.len())
    }

    pub fn text(&self) -> &Document
        ensures { result.now ≡ text_of (client_of self.now) }
    {
        &self.text
    }
}
