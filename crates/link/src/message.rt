// What the two ends of a line say to each other.
ghost use Rattle.std.specs.Prelude.{◌≡◌};
ghost use Rattle.link.specs.Messages.{is_fit_operation};

use crate::letters::{HIGHEST_SITE, Letters, is_letter};
use operation::entry::Entry;
use operation::operation::Operation;

// An operation as a client sends it. The site is not said: the server knows it by the connection.
#[derive(Clone, Copy, PartialEq, Eq, Debug)]
pub enum Edit {
    Insert { place: u32, letter: u32 },
    Delete { place: u32 },
}

impl Edit {
    ghost use Rattle.link.specs.Messages.{signed_by, edit_of, is_fit_edit};

    // What a client sends of its operation. One that does nothing is not sent.
    pub fn of(op: Operation) -> Option<Edit>
        ensures { result ≡ edit_of op }
    {
        match op {
            Operation::Noop { .. } => None,
            Operation::Insert { place, letter, .. } => Some(Edit::Insert { place, letter }),
            Operation::Delete { place, .. } => Some(Edit::Delete { place }),
        }
    }

    // The operation, of the site that sent it.
    pub fn by(self, site: u8) -> Operation
        ensures { result ≡ signed_by site self }
    {
        match self {
            Edit::Insert { place, letter } => Operation::Insert {
                site,
                place,
                letter,
            },
            Edit::Delete { place } => Operation::Delete { site, place },
        }
    }

    // Whether it can be said: a letter has a number that letters have.
    pub(crate) fn is_fit(self) -> bool
        ensures { result ≡ is_fit_edit self }
    {
        match self {
            Edit::Insert { letter, .. } => is_letter(letter),
            Edit::Delete { .. } => true,
        }
    }
}

// What a client sends.
#[derive(Clone, Copy, PartialEq, Eq, Debug)]
pub enum FromClient {
    // An operation as it was performed, and how many entries of the history the client had seen then.
    Operation { revision: u32, edit: Edit },
    // How many entries it has seen so far.
    Revision(u32),
    // It wants a connection.
    New,
}

// The server's text as a client gets it with a connection: the client's site, how many of that site's operations the history has,
// and how long the history is.
#[derive(Clone, Copy)]
pub struct Snapshot<'a> {
    pub site: u8,
    pub performed: u32,
    pub revision: u32,
    pub letters: Letters<'a>,
}

// The same as the server has it, to be sent: the letters' numbers, and the site of each.
#[derive(Clone, Copy)]
pub struct TextToSend<'a> {
    pub site: u8,
    pub performed: u32,
    pub revision: u32,
    pub letters: &'a [u32],
    pub sites: &'a [u8],
}

// What the server sends.
#[derive(Clone, Copy)]
pub enum FromServer<'a> {
    Entry(Entry),
    Text(Snapshot<'a>),
}

// Whether an operation of the history can be said.
pub fn operation_can_be_said(op: Operation) -> bool
    ensures { result ≡ is_fit_operation op }
{
    match op {
        Operation::Noop { site } => site <= HIGHEST_SITE,
        Operation::Insert { site, letter, .. } => site <= HIGHEST_SITE && is_letter(letter),
        Operation::Delete { site, .. } => site <= HIGHEST_SITE,
    }
}
