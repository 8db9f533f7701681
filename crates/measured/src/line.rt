// Datagrams are read and written, and shown in numbers.
ghost use Rattle.std.specs.Prelude.{◌≡◌, ◌≢◌, true, false, Ok, length, nat_le, if◌then◌else◌, IfOk};
ghost use Rattle.hex.specs.Hex.{decode_of, encode_lower};
ghost use Rattle.text.specs.Texts.{numbers, authors, paired};
ghost use Rattle.link.specs.declared.datagram.Datagram.{Datagram};
ghost use Rattle.link.specs.declared.message.FromClient.{FromClient};
ghost use Rattle.link.specs.Hexadecimal.{IsHexadecimal};
ghost use Rattle.link.specs.Letters.{over};
ghost use Rattle.link.specs.Messages.{Message, from_client, with_message, Sendable, ByServer};
ghost use Rattle.link.specs.Shown.{from_server};
ghost use Rattle.link.specs.Spelling.{spelling};
ghost use Rattle.measured.specs.Datagrams.{row_of, datagram_in, letters_said, Spells, Reads, Takes, Writes, HasRoom};

use crate::datagram_row::{ACKNOWLEDGEMENT, DatagramRow, ENTRY, TEXT};
use link::datagram::{Acknowledgement, Datagram, Packet};
use link::hexadecimal::{read_hexadecimal, write_hexadecimal};
use link::message::{FromServer, TextToSend};
use link::reading::{read_from_client, read_from_server};
use link::refusal::WriteError;
use link::writing::{write_from_client, write_from_server, write_text};
use operation::entry::Entry;
use std::alloc::Global;

// Writes all of the one at the front of the other and says how much that is, or writes nothing where there is no room for it.
fn copy_front(from: &[u8], to: &mut [u8]) -> usize
    ensures answer { result ≡ (if nat_le (length from.now) (length to.old) then length from.now else 0) }
    ensures bytes { to.new ≡ (if nat_le (length from.now) (length to.old) then over from.now to.old else to.old) }
{
    let count = from.len();
    if count > to.len() {
        return 0;
    }
    to[..count].copy_from_slice(from);
    count
}

// A text's letters and their sites, or nothing where there is no room for them. Any other datagram has none.
fn copy_letters(datagram: Datagram<FromServer<'_>>, letters: &mut [u32], sites: &mut [u8]) -> bool
    ensures answer { HasRoom (with_message from_server datagram.entry) letters.old sites.old → result ≡ true }
    ensures letters { letters.new ≡ (if result then over (numbers (letters_said (with_message from_server datagram.entry))) letters.old else letters.old) }
    ensures sites { sites.new ≡ (if result then over (authors (letters_said (with_message from_server datagram.entry))) sites.old else sites.old) }
{
    match datagram {
        Datagram::Packet(
            Packet {
                message: FromServer::Text(snapshot),
                ..
            },
        ) => snapshot.letters.copy_to(letters, sites),
        _ => true,
    }
}

// The bytes of a datagram that is given in numbers, if it can be said.
pub(crate) fn written(
    alloc: Global,
    row: DatagramRow,
    letters: &[u32],
    sites: &[u8],
) -> Result<Vec<u8>, WriteError>
    ensures { IfOk result (λ v. Spells (datagram_in row (paired letters.now sites.now)) v.items) }
{
    let DatagramRow {
        kind,
        site,
        connection,
        number,
        revision,
        performed,
        ..
    } = row;
    match kind {
        ACKNOWLEDGEMENT => write_from_client(
            alloc,
            Datagram::Acknowledgement(Acknowledgement {
                connection,
                last: number,
            }),
        ),
        ENTRY => {
            let message = FromServer::Entry(Entry {
                place: revision,
                op: row.operation(),
            });
            write_from_server(
                alloc,
                Datagram::Packet(Packet {
                    connection,
                    number,
                    message,
                }),
            )
        }
        TEXT => {
            let text = TextToSend {
                site,
                performed,
                revision,
                letters,
                sites,
            };
            write_text(alloc, connection, number, text)
        }
        _ => {
            let message = row.from_client().ok_or(WriteError::Unfit)?;
            write_from_client(
                alloc,
                Datagram::Packet(Packet {
                    connection,
                    number,
                    message,
                }),
            )
        }
    }
}

// A datagram that came to the server is shown in numbers. Where it is refused the answer is false, and nothing is written.
#[unsafe(no_mangle)]
pub extern "C" fn measured_read_at_server(bytes: &[u8], row: &mut DatagramRow) -> bool
    ensures found { result ≡ true → (d : Datagram FromClient) × Reads (with_message from_client d) bytes.now row.new }
    ensures only { (d : Datagram FromClient) → Sendable (with_message from_client d) → bytes.now ≡ spelling (with_message from_client d) → result ≡ true }
    ensures kept { result ≡ false → row.new ≡ row.old }
{
    match read_from_client(bytes) {
        Ok(datagram) => {
            *row = DatagramRow::of_client(datagram);
            true
        }
        Err(_) => false,
    }
}

// The same of one that came to a client, with the letters of a text and their sites. The answer is false also where there is no room for these.
#[unsafe(no_mangle)]
pub extern "C" fn measured_read_at_client(
    bytes: &[u8],
    row: &mut DatagramRow,
    letters: &mut [u32],
    sites: &mut [u8],
) -> bool
    ensures found { result ≡ true → (d : Datagram Message) × ByServer d × Reads d bytes.now row.new × Takes d letters.old letters.new sites.old sites.new }
    ensures only { (d : Datagram Message) → ByServer d → Sendable d → bytes.now ≡ spelling d → HasRoom d letters.old sites.old → result ≡ true }
    ensures row { result ≡ false → row.new ≡ row.old }
    ensures kept { result ≡ false → (letters.new ≡ letters.old) × (sites.new ≡ sites.old) }
{
    let Ok(datagram) = read_from_server(bytes) else {
        return false;
    };
    if !copy_letters(datagram, letters, sites) {
        return false;
    }
    *row = DatagramRow::of_server(datagram);
    true
}

// Writes the bytes of a datagram, and says how many they are: 0 where it is refused, where memory is wanting, and where there is no room.
#[unsafe(no_mangle)]
pub extern "C" fn measured_write(
    alloc: Global,
    row: DatagramRow,
    letters: &[u32],
    sites: &[u8],
    to: &mut [u8],
) -> usize
    ensures written { result ≢ 0 → Writes (datagram_in row (paired letters.now sites.now)) to.old to.new result }
    ensures kept { result ≡ 0 → to.new ≡ to.old }
{
    match written(alloc, row, letters, sites) {
        Ok(bytes) => copy_front(bytes.as_slice(), to),
        Err(_) => 0,
    }
}

// Writes all of the one over the other if both are as long, and says so.
fn fill(from: &[u8], to: &mut [u8]) -> bool
    ensures { to.new ≡ (if result then from.now else to.old) }
{
    if from.len() != to.len() {
        return false;
    }
    to.copy_from_slice(from);
    true
}

// Writes the bytes that hexadecimal text says. Where it is refused, where memory is wanting, and where the bytes are not as many as there
// is room for, the answer is false, and nothing is written.
#[unsafe(no_mangle)]
pub extern "C" fn measured_read_hexadecimal(alloc: Global, text: &[u8], to: &mut [u8]) -> bool
    ensures found { result ≡ true → IsHexadecimal text.now × (decode_of text.now ≡ Ok to.new) }
    ensures kept { result ≡ false → to.new ≡ to.old }
{
    match read_hexadecimal(alloc, text) {
        Ok(bytes) => fill(bytes.as_slice(), to),
        Err(_) => false,
    }
}

// Writes bytes as hexadecimal text.
#[unsafe(no_mangle)]
pub extern "C" fn measured_write_hexadecimal(alloc: Global, bytes: &[u8], to: &mut [u8]) -> bool
    ensures found { result ≡ true → to.new ≡ encode_lower bytes.now }
    ensures kept { result ≡ false → to.new ≡ to.old }
{
    match write_hexadecimal(alloc, bytes) {
        Ok(text) => fill(text.as_bytes(), to),
        Err(_) => false,
    }
}
