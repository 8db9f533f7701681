// What the journal has, and its bytes.
ghost use Rattle.std.specs.Prelude.{◌≡◌, ℕ, ◌<◌, List, ◌++◌, length, take, drop, Some, None, Ok, IfOk, IfSome};
ghost use Rattle.journal.specs.declared.record.Record.TheVariants.{Connection};
ghost use Rattle.journal.specs.Records.{spelled, width, connection_in, record_in, CanBeWritten};
ghost use Rattle.journal.specs.Replaying.{found};

use crate::refusal::Refusal;
use link::entry_bytes::{ENTRY_LENGTH, read_entry};
use operation::entry::Entry;

// How many bytes the number of a connection has.
pub(crate) const CONNECTION_LENGTH: usize = 5;

// The first bytes.
pub(crate) const ENTRY: u8 = 2;

pub(crate) const CONNECTION: u8 = 6;

// An entry of the history, or the number of a connection.
#[derive(Clone, Copy, PartialEq, Eq, Debug)]
pub enum Record {
    Entry(Entry),
    Connection(u32),
}

// How many bytes a record has that begins with this one, if one does.
fn width(kind: u8) -> Option<usize>
    ensures { result ≡ width kind }
{
    match kind {
        ENTRY => Some(ENTRY_LENGTH),
        CONNECTION => Some(CONNECTION_LENGTH),
        _ => None,
    }
}

// The bytes of a connection's number.
pub(crate) fn spell_connection(connection: u32) -> [u8; CONNECTION_LENGTH]
    ensures { result ≡ spelled (Connection connection) }
{
    let [a, b, c, d] = connection.to_be_bytes();
    [CONNECTION, a, b, c, d]
}

#[tactic(auto, unfolding(crate::specs::Records::connection_in, link::specs::Reading::word_at))]
fn connection(bytes: &[u8]) -> Option<Record>
    ensures { result ≡ connection_in bytes.now }
{
    if bytes.len() != 4 {
        return None;
    }
    let number = u32::from_be_bytes([bytes[0], bytes[1], bytes[2], bytes[3]]);
    Some(Record::Connection(number))
}

// The record that has just these bytes, if one has.
#[tactic(auto, unfolding(crate::specs::Records::record_in, link::specs::Reading::byte_at))]
pub(crate) fn record_of(bytes: &[u8]) -> Option<Record>
    ensures { result ≡ record_in bytes.now }
{
    match bytes {
        [] => None,
        [kind, rest @ ..] => match *kind {
            ENTRY => Some(Record::Entry(read_entry(bytes)?)),
            CONNECTION => connection(rest),
            _ => None,
        },
    }
}

// What stands at the front of some bytes: a record, nothing whole yet, or what is no record, whatever follows.
#[tactic(auto, unfolding(crate::specs::Replaying::front))]
pub(crate) fn find(bytes: &[u8]) -> Result<Option<Record>, Refusal>
    ensures { result ≡ found bytes.now }
{
    let Some(kind) = bytes.first() else {
        return Ok(None);
    };
    let Some(width) = width(*kind) else {
        return Err(Refusal::Malformed);
    };
    let Some(bytes) = bytes.get(..width) else {
        return Ok(None);
    };
    match record_of(bytes) {
        Some(record) => Ok(Some(record)),
        None => Err(Refusal::Malformed),
    }
}

impl Record {
    // How many bytes it has.
    pub fn length(self) -> usize
        ensures { result ≡ length (spelled self) }
    {
        match self {
            Record::Entry(_) => ENTRY_LENGTH,
            Record::Connection(_) => CONNECTION_LENGTH,
        }
    }

    // The record at the front of some bytes, if a whole one is there. What is read is spelled so; what was written is read again, whatever
    // is behind it; and of any first part of it nothing is read yet. Other bytes are malformed.
    #[tactic(auto, using(crate::proofs::Finds::read_again, crate::proofs::Finds::read_part))]
    pub fn read(bytes: &[u8]) -> Result<Option<Record>, Refusal>
        ensures found { result ≡ found bytes.now }
        ensures read { IfOk result (λ o. IfSome o (λ r. (bytes.now ≡ spelled r ++ drop (length (spelled r)) bytes.now) × CanBeWritten r)) }
        ensures again { (r : Record) (rest : List ℕ) → CanBeWritten r → bytes.now ≡ spelled r ++ rest → result ≡ Ok (Some r) }
        ensures part { (r : Record) (n : ℕ) → n < length (spelled r) → bytes.now ≡ take n (spelled r) → result ≡ Ok None }
    {
        find(bytes)
    }
}
