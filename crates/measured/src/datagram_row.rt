// What a datagram is, in numbers.
ghost use Rattle.std.specs.Prelude.{◌≡◌};
ghost use Rattle.link.specs.declared.datagram.Datagram.TheVariants as datagram;
ghost use Rattle.link.specs.Messages.{with_message, from_client, signed_by};
ghost use Rattle.link.specs.Shown.{from_server};

use crate::row::{DELETE, INSERT, Row};
use link::datagram::{Acknowledgement, Datagram, Packet};
use link::message::{Edit, FromClient, FromServer};
use operation::operation::Operation;

pub(crate) const ACKNOWLEDGEMENT: u8 = 0;

pub(crate) const OPERATION: u8 = 1;

pub(crate) const ENTRY: u8 = 2;

pub(crate) const REVISION: u8 = 3;

pub(crate) const NEW: u8 = 4;

pub(crate) const TEXT: u8 = 5;

// A field that a datagram has not is 0.
#[repr(C)]
#[derive(Clone, Copy)]
pub struct DatagramRow {
    pub kind: u8,
    // What an operation or an entry does: 0 nothing, 1 inserts, 2 deletes.
    pub change: u8,
    // Of an entry or a text.
    pub site: u8,
    pub connection: u32,
    // Of an acknowledgement, the last that was taken.
    pub number: u32,
    // Of an entry, its place.
    pub revision: u32,
    pub place: u32,
    pub letter: u32,
    pub performed: u32,
    // How many letters a text has.
    pub letters: usize,
}

impl DatagramRow {
    ghost use Rattle.measured.specs.Datagrams.{bare_row, with_operation, with_revision, row_of, operation_in, packet_in, client_message_in};

    // One that has these numbers and nothing else.
    pub(crate) fn bare(kind: u8, connection: u32, number: u32) -> DatagramRow
        ensures { result ≡ bare_row kind connection number }
    {
        DatagramRow {
            kind,
            change: 0,
            site: 0,
            connection,
            number,
            revision: 0,
            place: 0,
            letter: 0,
            performed: 0,
            letters: 0,
        }
    }

    fn with_operation(self, op: Operation) -> DatagramRow
        ensures { result ≡ with_operation op self }
    {
        match op {
            Operation::Noop { site } => DatagramRow { site, ..self },
            Operation::Insert {
                site,
                place,
                letter,
            } => DatagramRow {
                change: INSERT,
                site,
                place,
                letter,
                ..self
            },
            Operation::Delete { site, place } => DatagramRow {
                change: DELETE,
                site,
                place,
                ..self
            },
        }
    }

    pub(crate) fn of_acknowledgement(acknowledgement: Acknowledgement) -> DatagramRow
        ensures { result ≡ row_of (datagram.Acknowledgement acknowledgement) }
    {
        let Acknowledgement { connection, last } = acknowledgement;
        DatagramRow::bare(ACKNOWLEDGEMENT, connection, last)
    }

    // What a client has sent.
    pub(crate) fn of_client(datagram: Datagram<FromClient>) -> DatagramRow
        ensures { result ≡ row_of (with_message from_client datagram) }
    {
        let Packet {
            connection,
            number,
            message,
        } = match datagram {
            Datagram::Packet(packet) => packet,
            Datagram::Acknowledgement(acknowledgement) => {
                return DatagramRow::of_acknowledgement(acknowledgement);
            }
        };
        match message {
            FromClient::Operation { revision, edit } => DatagramRow {
                revision,
                ..DatagramRow::bare(OPERATION, connection, number)
            }
            .with_operation(edit.by(0)),
            FromClient::Revision(revision) => DatagramRow {
                revision,
                ..DatagramRow::bare(REVISION, connection, number)
            },
            FromClient::New => DatagramRow::bare(NEW, connection, number),
        }
    }

    // What the server has sent. A text's letters are apart.
    pub(crate) fn of_server(datagram: Datagram<FromServer<'_>>) -> DatagramRow
        ensures { result ≡ row_of (with_message from_server datagram.entry) }
    {
        let Packet {
            connection,
            number,
            message,
        } = match datagram {
            Datagram::Packet(packet) => packet,
            Datagram::Acknowledgement(acknowledgement) => {
                return DatagramRow::of_acknowledgement(acknowledgement);
            }
        };
        match message {
            FromServer::Entry(entry) => DatagramRow {
                revision: entry.place,
                ..DatagramRow::bare(ENTRY, connection, number)
            }
            .with_operation(entry.op),
            FromServer::Text(snapshot) => DatagramRow {
                site: snapshot.site,
                revision: snapshot.revision,
                performed: snapshot.performed,
                letters: snapshot.letters.len(),
                ..DatagramRow::bare(TEXT, connection, number)
            },
        }
    }

    // The operation that it has.
    pub(crate) fn operation(self) -> Operation
        ensures { result ≡ operation_in self }
    {
        let DatagramRow {
            change,
            site,
            revision,
            place,
            letter,
            ..
        } = self;
        Row {
            kind: change,
            site,
            revision,
            place,
            letter,
        }
        .operation()
    }

    // What a client says with it.
    pub(crate) fn from_client(self) -> Option<FromClient>
        ensures { result ≡ client_message_in self }
    {
        let revision = self.revision;
        match self.kind {
            OPERATION => {
                let edit = Edit::of(self.operation())?;
                Some(FromClient::Operation { revision, edit })
            }
            REVISION => Some(FromClient::Revision(revision)),
            NEW => Some(FromClient::New),
            _ => None,
        }
    }
}
