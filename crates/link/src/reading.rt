// Packets and acknowledgements are read from bytes. What is no datagram that this end is sent, is malformed.
ghost use Rattle.std.specs.Prelude.{◌≡◌, ◌∷◌, ◌++◌, ◌<◌, ℕ, List, length, take, Ok, IfOk, IfErr, IsErr, IsOkAnd, option_map};
ghost use Rattle.link.specs.declared.datagram.Datagram.{Datagram};
ghost use Rattle.link.specs.declared.message.FromClient.{FromClient};
ghost use Rattle.link.specs.declared.refusal.Refusal.TheVariants.{Malformed};
ghost use Rattle.link.specs.Messages.{Message, from_client, with_message, Sendable, ByServer};
ghost use Rattle.link.specs.Shown.{from_server};
ghost use Rattle.link.specs.Spelling.{spelling};
ghost use Rattle.link.specs.Reading.{operation_at, revision_at, new_at, entry_at, text_at, client_message, server_message, message_at, unsealed, opened, from_client_at, from_server_at};

use crate::checksum::checksum;
use crate::datagram::{Acknowledgement, Datagram, Packet};
use crate::fields;
use crate::letters::Letters;
use crate::message::{FromClient, FromServer, Snapshot};
use crate::refusal::Refusal;
use operation::entry::Entry;

// The first bytes.
pub(crate) const OPERATION: u8 = 1;

pub(crate) const ENTRY: u8 = 2;

pub(crate) const REVISION: u8 = 3;

pub(crate) const NEW: u8 = 4;

pub(crate) const TEXT: u8 = 5;

pub(crate) const PACKET: u8 = 84;

pub(crate) const ACKNOWLEDGEMENT: u8 = 85;

#[tactic(auto, unfolding(crate::specs::Reading::operation_at))]
fn operation(bytes: &[u8]) -> Option<FromClient>
    ensures { option_map from_client result ≡ operation_at bytes.now }
{
    let (revision, rest) = fields::word(bytes)?;
    let edit = fields::code(rest)?.edit()?;
    Some(FromClient::Operation { revision, edit })
}

#[tactic(auto, unfolding(crate::specs::Reading::revision_at))]
fn revision(bytes: &[u8]) -> Option<FromClient>
    ensures { option_map from_client result ≡ revision_at bytes.now }
{
    let (revision, rest) = fields::word(bytes)?;
    if !rest.is_empty() {
        return None;
    }
    Some(FromClient::Revision(revision))
}

#[tactic(auto, unfolding(crate::specs::Reading::new_at))]
fn new(connection: u32, bytes: &[u8]) -> Option<FromClient>
    ensures { option_map from_client result ≡ new_at connection bytes.now }
{
    if connection != 0 || !bytes.is_empty() {
        return None;
    }
    Some(FromClient::New)
}

#[tactic(auto, unfolding(crate::specs::Reading::message_at))]
fn message_from_client(connection: u32, bytes: &[u8]) -> Option<FromClient>
    ensures { option_map from_client result ≡ message_at (client_message connection) bytes.now }
{
    let (kind, rest) = fields::byte(bytes)?;
    match kind {
        OPERATION => operation(rest),
        REVISION => revision(rest),
        NEW => new(connection, rest),
        _ => None,
    }
}

#[tactic(auto, unfolding(crate::specs::Reading::entry_at))]
fn entry(bytes: &[u8]) -> Option<FromServer<'_>>
    ensures { option_map from_server result ≡ entry_at bytes.now }
{
    let (place, rest) = fields::word(bytes)?;
    let (site, rest) = fields::site(rest)?;
    let op = fields::code(rest)?.operation(site)?;
    Some(FromServer::Entry(Entry { place, op }))
}

#[tactic(auto, unfolding(crate::specs::Reading::text_at))]
fn text(connection: u32, bytes: &[u8]) -> Option<FromServer<'_>>
    ensures { option_map from_server result ≡ text_at connection bytes.now }
{
    let (said, rest) = fields::word(bytes)?;
    if said != connection {
        return None;
    }
    let (site, rest) = fields::site(rest)?;
    let (performed, rest) = fields::word(rest)?;
    let (revision, rest) = fields::word(rest)?;
    let (count, rest) = fields::word(rest)?;
    let letters = Letters::read(rest)?;
    if letters.len() != count as usize {
        return None;
    }
    Some(FromServer::Text(Snapshot {
        site,
        performed,
        revision,
        letters,
    }))
}

#[tactic(auto, unfolding(crate::specs::Reading::message_at))]
fn message_from_server(connection: u32, bytes: &[u8]) -> Option<FromServer<'_>>
    ensures { option_map from_server result ≡ message_at (server_message connection) bytes.now }
{
    let (kind, rest) = fields::byte(bytes)?;
    match kind {
        ENTRY => entry(rest),
        TEXT => text(connection, rest),
        _ => None,
    }
}

// The bytes before the sum, if that is right.
#[tactic(auto, unfolding(crate::specs::Reading::unsealed))]
fn unseal(bytes: &[u8]) -> Option<&[u8]>
    ensures { option_map (λ body. body.now) result ≡ unsealed bytes.now }
{
    if bytes.len() < 2 {
        return None;
    }
    let (body, sum) = bytes.split_at(bytes.len() - 2);
    if u16::from_be_bytes([sum[0], sum[1]]) != checksum(body) {
        return None;
    }
    Some(body)
}

// A datagram, its message still in bytes.
#[tactic(auto, unfolding(crate::specs::Reading::opened))]
fn open(bytes: &[u8]) -> Option<Datagram<&[u8]>>
    ensures { option_map (with_message (λ m. m.now)) result ≡ opened bytes.now }
{
    let body = unseal(bytes)?;
    let (kind, rest) = fields::byte(body)?;
    let (connection, rest) = fields::word(rest)?;
    let (number, rest) = fields::word(rest)?;
    match kind {
        PACKET => Some(Datagram::Packet(Packet {
            connection,
            number,
            message: rest,
        })),
        ACKNOWLEDGEMENT if rest.is_empty() => Some(Datagram::Acknowledgement(Acknowledgement {
            connection,
            last: number,
        })),
        _ => None,
    }
}

#[tactic(auto, unfolding(crate::specs::Reading::from_client_at))]
fn datagram_from_client(bytes: &[u8]) -> Option<Datagram<FromClient>>
    ensures { option_map (with_message from_client) result ≡ from_client_at bytes.now }
{
    match open(bytes)? {
        Datagram::Packet(
            Packet {
                connection,
                number,
                message,
            },
        ) => {
            let message = message_from_client(connection, message)?;
            Some(Datagram::Packet(Packet {
                connection,
                number,
                message,
            }))
        }
        Datagram::Acknowledgement(acknowledgement) => {
            Some(Datagram::Acknowledgement(acknowledgement))
        }
    }
}

#[tactic(auto, unfolding(crate::specs::Reading::from_server_at))]
fn datagram_from_server(bytes: &[u8]) -> Option<Datagram<FromServer<'_>>>
    ensures { option_map (with_message from_server) result ≡ from_server_at bytes.now }
{
    match open(bytes)? {
        Datagram::Packet(
            Packet {
                connection,
                number,
                message,
            },
        ) => {
            let message = message_from_server(connection, message)?;
            Some(Datagram::Packet(Packet {
                connection,
                number,
                message,
            }))
        }
        Datagram::Acknowledgement(acknowledgement) => {
            Some(Datagram::Acknowledgement(acknowledgement))
        }
    }
}

// A datagram that came to the server. It is read exactly if the bytes spell one that a client sends.
pub fn read_from_client(bytes: &[u8]) -> Result<Datagram<FromClient>, Refusal>
    ensures found { IfOk result (λ d. Sendable (with_message from_client d) × (bytes.now ≡ spelling (with_message from_client d))) }
    ensures only { (d : Datagram FromClient) → Sendable (with_message from_client d) → bytes.now ≡ spelling (with_message from_client d) → result ≡ Ok d }
    ensures refusal { IfErr result (λ e. e ≡ Malformed) }
    // What was sent is refused where it is cut short, and where bytes are behind it.
    ensures cut { (d : Datagram Message) (n : ℕ) → Sendable d → n < length (spelling d) → bytes.now ≡ take n (spelling d) → IsErr result }
    ensures longer { (d : Datagram Message) (b : ℕ) (more : List ℕ) → Sendable d → bytes.now ≡ spelling d ++ b ∷ more → IsErr result }
{
    datagram_from_client(bytes).ok_or(Refusal::Malformed)
}

// The same of one that came to a client from the server.
pub fn read_from_server(bytes: &[u8]) -> Result<Datagram<FromServer<'_>>, Refusal>
    ensures found { IfOk result (λ d. Sendable (with_message from_server d) × (bytes.now ≡ spelling (with_message from_server d))) }
    ensures only { (d : Datagram Message) → ByServer d → Sendable d → bytes.now ≡ spelling d → IsOkAnd result (λ e. with_message from_server e ≡ d) }
    ensures refusal { IfErr result (λ e. e ≡ Malformed) }
    ensures cut { (d : Datagram Message) (n : ℕ) → Sendable d → n < length (spelling d) → bytes.now ≡ take n (spelling d) → IsErr result }
    ensures longer { (d : Datagram Message) (b : ℕ) (more : List ℕ) → Sendable d → bytes.now ≡ spelling d ++ b ∷ more → IsErr result }
{
    datagram_from_server(bytes).ok_or(Refusal::Malformed)
}
