// Packets and acknowledgements are written as bytes. What is beyond what can be said is refused.
ghost use Rattle.std.specs.Prelude.{◌≡◌, ◌++◌, ◌&&◌, ◌==◌, [], length, true, IfOk, IsErrOf, OnOk};
ghost use Rattle.link.specs.declared.refusal.WriteError.TheVariants.{Unfit};
ghost use Rattle.link.specs.Messages.{text, from_client, with_message, is_fit, is_fit_sheet, Sendable};
ghost use Rattle.link.specs.Letters.{can_be_spelled};
ghost use Rattle.link.specs.Shown.{sheet_of, sheet_to_send, from_server, text_packet};
ghost use Rattle.link.specs.Spelling.{word, spelled_code, text_head, spelled, headed, sealed, spelling};

use crate::checksum::checksum;
use crate::datagram::{Acknowledgement, Datagram, Packet};
use crate::fields::OperationCode;
use crate::letters::{HIGHEST_SITE, LETTER_WIDTH, are_letters_of_text, put_letters};
use crate::message::{FromClient, FromServer, Snapshot, TextToSend, operation_can_be_said};
use crate::reading::{ACKNOWLEDGEMENT, ENTRY, NEW, OPERATION, PACKET, REVISION, TEXT};
use crate::refusal::WriteError;
use std::alloc::{AllocError, Global};

// How many bytes a datagram has beside a text's letters, at most.
const MOST: usize = 29;

// Whether it can be said in a packet of that connection.
fn can_be_said_by_client(connection: u32, message: FromClient) -> bool
    ensures { result ≡ is_fit connection (from_client message) }
{
    match message {
        FromClient::Operation { edit, .. } => edit.is_fit(),
        FromClient::Revision(_) => true,
        FromClient::New => connection == 0,
    }
}

fn can_be_said_by_server(connection: u32, message: FromServer<'_>) -> bool
    ensures { result ≡ is_fit connection (from_server message.entry) }
{
    match message {
        FromServer::Entry(entry) => operation_can_be_said(entry.op),
        FromServer::Text(snapshot) => snapshot.site <= HIGHEST_SITE,
    }
}

// Puts the first bytes in: what it is, the connection, and the number.
fn head(
    alloc: Global,
    kind: u8,
    connection: u32,
    number: u32,
    more: usize,
) -> Result<Vec<u8>, AllocError>
    ensures { IfOk result (λ v. v.items ≡ headed kind connection number []) }
{
    let mut out = Vec::with_capacity(alloc, more.saturating_add(MOST))?;
    out.push(kind)?;
    put_word(&mut out, connection)?;
    put_word(&mut out, number)?;
    Ok(out)
}

// Puts the sum behind all that.
fn seal(mut out: Vec<u8>) -> Result<Vec<u8>, AllocError>
    ensures { IfOk result (λ v. v.items ≡ sealed out.items) }
{
    let sum = checksum(out.as_slice());
    out.extend_from_slice(&sum.to_be_bytes())?;
    Ok(out)
}

fn put_word(out: &mut Vec<u8>, number: u32) -> Result<(), AllocError>
    ensures { OnOk result (out.new.items ≡ out.old.items ++ word number) }
{
    out.extend_from_slice(&number.to_be_bytes())
}

fn put_code(out: &mut Vec<u8>, code: OperationCode) -> Result<(), AllocError>
    ensures { OnOk result (out.new.items ≡ out.old.items ++ spelled_code code) }
{
    out.push(code.kind)?;
    put_word(out, code.place)?;
    put_word(out, code.letter)
}

fn put_from_client(
    out: &mut Vec<u8>,
    connection: u32,
    message: FromClient,
) -> Result<(), AllocError>
    ensures { OnOk result (out.new.items ≡ out.old.items ++ spelled connection (from_client message)) }
{
    match message {
        FromClient::Operation { revision, edit } => {
            out.push(OPERATION)?;
            put_word(out, revision)?;
            put_code(out, OperationCode::of_edit(edit))
        }
        FromClient::Revision(revision) => {
            out.push(REVISION)?;
            put_word(out, revision)
        }
        FromClient::New => Ok(out.push(NEW)?),
    }
}

// A text up to its letters, of which there are so many.
fn put_text_head(
    out: &mut Vec<u8>,
    connection: u32,
    site: u8,
    performed: u32,
    revision: u32,
    count: u32,
) -> Result<(), AllocError>
    ensures { OnOk result (out.new.items ≡ out.old.items ++ text_head connection site performed revision count) }
{
    out.push(TEXT)?;
    put_word(out, connection)?;
    out.push(site)?;
    put_word(out, performed)?;
    put_word(out, revision)?;
    put_word(out, count)
}

fn put_text(out: &mut Vec<u8>, connection: u32, snapshot: Snapshot<'_>) -> Result<(), AllocError>
    ensures { OnOk result (out.new.items ≡ out.old.items ++ spelled connection (text (sheet_of snapshot.entry))) }
{
    let Snapshot {
        site,
        performed,
        revision,
        letters,
    } = snapshot;
    let count = letters.len() as u32;
    put_text_head(out, connection, site, performed, revision, count)?;
    out.extend_from_slice(letters.bytes())
}

fn put_from_server(
    out: &mut Vec<u8>,
    connection: u32,
    message: FromServer<'_>,
) -> Result<(), AllocError>
    ensures { OnOk result (out.new.items ≡ out.old.items ++ spelled connection (from_server message.entry)) }
{
    match message {
        FromServer::Entry(entry) => {
            out.push(ENTRY)?;
            put_word(out, entry.place)?;
            out.push(entry.op.site())?;
            put_code(out, OperationCode::of_operation(entry.op))
        }
        FromServer::Text(snapshot) => put_text(out, connection, snapshot),
    }
}

fn acknowledgement_bytes(
    alloc: Global,
    acknowledgement: Acknowledgement,
) -> Result<Vec<u8>, AllocError>
    ensures { IfOk result (λ v. v.items ≡ sealed (headed 85 acknowledgement.connection acknowledgement.last [])) }
{
    let Acknowledgement { connection, last } = acknowledgement;
    seal(head(alloc, ACKNOWLEDGEMENT, connection, last, 0)?)
}

// The bytes of what a client sends, if they can be said.
pub fn write_from_client(
    alloc: Global,
    datagram: Datagram<FromClient>,
) -> Result<Vec<u8>, WriteError>
    ensures found { IfOk result (λ v. Sendable (with_message from_client datagram) × (v.items ≡ spelling (with_message from_client datagram))) }
    ensures unfit { IsErrOf result Unfit → Sendable (with_message from_client datagram) → ⊥ }
    ensures refused { (Sendable (with_message from_client datagram) → ⊥) → IsErrOf result Unfit }
{
    match datagram {
        Datagram::Packet(
            Packet {
                connection,
                number,
                message,
            },
        ) => {
            if !can_be_said_by_client(connection, message) {
                return Err(WriteError::Unfit);
            }
            let mut out = head(alloc, PACKET, connection, number, 0)?;
            put_from_client(&mut out, connection, message)?;
            Ok(seal(out)?)
        }
        Datagram::Acknowledgement(acknowledgement) => Ok(acknowledgement_bytes(
            alloc,
            acknowledgement,
        )?),
    }
}

// The same of what the server sends.
pub fn write_from_server(
    alloc: Global,
    datagram: Datagram<FromServer<'_>>,
) -> Result<Vec<u8>, WriteError>
    ensures found { IfOk result (λ v. Sendable (with_message from_server datagram.entry) × (v.items ≡ spelling (with_message from_server datagram.entry))) }
    ensures unfit { IsErrOf result Unfit → Sendable (with_message from_server datagram.entry) → ⊥ }
    ensures refused { (Sendable (with_message from_server datagram.entry) → ⊥) → IsErrOf result Unfit }
{
    match datagram {
        Datagram::Packet(
            Packet {
                connection,
                number,
                message,
            },
        ) => {
            if !can_be_said_by_server(connection, message) {
                return Err(WriteError::Unfit);
            }
            let more = match message {
                FromServer::Entry(_) => 0,
                FromServer::Text(snapshot) => snapshot.letters.bytes().len(),
            };
            let mut out = head(alloc, PACKET, connection, number, more)?;
            put_from_server(&mut out, connection, message)?;
            Ok(seal(out)?)
        }
        Datagram::Acknowledgement(acknowledgement) => Ok(acknowledgement_bytes(
            alloc,
            acknowledgement,
        )?),
    }
}

// Whether a text as the server has it can be said, and there are as many sites as letters.
fn can_be_sent(text: TextToSend<'_>) -> bool
    ensures { result ≡ ((length text.entry.letters.now == length text.entry.sites.now) && is_fit_sheet (sheet_to_send text.entry)) }
{
    text.site <= HIGHEST_SITE && are_letters_of_text(text.letters, text.sites)
}

// The bytes of its packet.
fn text_bytes(
    alloc: Global,
    connection: u32,
    number: u32,
    text: TextToSend<'_>,
) -> Result<Vec<u8>, AllocError>
    requires { can_be_spelled text.letters.now text.sites.now ≡ true }
    ensures { IfOk result (λ v. v.items ≡ spelling (text_packet connection number text.entry)) }
{
    let TextToSend {
        site,
        performed,
        revision,
        letters,
        sites,
    } = text;
    let count = letters.len() as u32;
    let mut out = head(
        alloc,
        PACKET,
        connection,
        number,
        letters.len() * LETTER_WIDTH,
    )?;
    put_text_head(&mut out, connection, site, performed, revision, count)?;
    put_letters(&mut out, letters, sites)?;
    seal(out)
}

// A packet with a text as the server has it, if it can be said and there are as many sites as letters. The packet may be kept, and sent
// again as it is.
pub fn write_text(
    alloc: Global,
    connection: u32,
    number: u32,
    text: TextToSend<'_>,
) -> Result<Vec<u8>, WriteError>
    ensures found { IfOk result (λ v. (length text.entry.letters.now ≡ length text.entry.sites.now) × Sendable (text_packet connection number text.entry) × (v.items ≡ spelling (text_packet connection number text.entry))) }
    ensures unfit { IsErrOf result Unfit → length text.entry.letters.now ≡ length text.entry.sites.now → Sendable (text_packet connection number text.entry) → ⊥ }
    ensures refused { (length text.entry.letters.now ≡ length text.entry.sites.now → Sendable (text_packet connection number text.entry) → ⊥) → IsErrOf result Unfit }
{
    if !can_be_sent(text) {
        return Err(WriteError::Unfit);
    }
    Ok(text_bytes(alloc, connection, number, text)?)
}
