// The server's end of a line: the connection that it has given, what it takes of it, and what it sends in it.
ghost use Rattle.std.specs.Prelude.{◌≡◌, Some, None, Option, option_map};
ghost use Rattle.link.specs.Numbering.{newly_sent, acknowledged_to};
ghost use Rattle.link.specs.ServerSide.{new_seat, seat_acknowledged, said_in_seat, connection_at, packet_admitted, one_taken_at, server_answer, after_hearing_at_server, sends_after_hearing, grown, sends_after_growing, sends_again, said_under, text_kept};
ghost use Rattle.link.specs.declared.server_end.Seat.{Seat};

use crate::datagram::{Acknowledgement, Packet};
use crate::message::FromClient;
use crate::receiver::Receiver;
use crate::refusal::Refusal;
use crate::window::{Numbers, Window};
use std::marker::Model;

// What a client wants with a packet that is taken.
#[derive(Clone, Copy, PartialEq, Eq, Debug)]
pub enum Wanted {
    // A connection.
    Connection,
    // What the message says, in the current connection.
    Message,
}

// Which message a number of the server's stands for.
#[derive(Clone, Copy, PartialEq, Eq, Debug)]
pub enum Said {
    // The text that the connection began with.
    Text,
    // The entry at that place of the history.
    Entry(u32),
}

// One connection. Number 1 is the text as of place `base` of the history, and from there on the entries follow, so no queue is
// needed. The packet with the text is kept until it is acknowledged.
#[derive(Drop)]
pub struct Seat {
    receiver: Receiver,
    window: Window,
    base: u32,
    text: Option<Vec<u8>>,
}

impl Seat {
    // A new connection: its text is the first message.
    fn new(connection: u32, base: u32, text: Vec<u8>) -> Seat
        ensures { result ≡ new_seat connection base text }
    {
        let mut window = Window::new();
        let _ = window.push();
        Seat {
            receiver: Receiver::new(connection),
            window,
            base,
            text: Some(text),
        }
    }

    // The client has taken all up to that number: which messages may go now.
    fn acknowledge(&mut self, last: u32) -> Numbers
        ensures answer { result ≡ newly_sent self.old.window (acknowledged_to last self.old.window) }
        ensures after { self.new ≡ seat_acknowledged last self.old }
    {
        let numbers = self.window.acknowledge(last);
        if self.window.acknowledged() > 0 {
            self.text = None;
        }
        numbers
    }

    // Which message that number stands for, if it was ever to be sent.
    fn said(&self, number: u32) -> Option<Said>
        ensures { result ≡ said_in_seat number self.now }
    {
        if number == 0 || number > self.window.total() {
            return None;
        }
        match number - 1 {
            0 => Some(Said::Text),
            entries => Some(Said::Entry(self.base.checked_add(entries - 1)?)),
        }
    }
}

// None: the line has no connection.
#[derive(Drop)]
pub struct ServerEnd {
    seat: Option<Seat>,
}

impl Model for ServerEnd {
    ghost Value = { Option Seat };

    ghost view = { λ e. e.seat };
}

impl ServerEnd {
    // A line without a connection.
    pub fn new() -> ServerEnd
        ensures { result ≡ None }
    {
        ServerEnd { seat: None }
    }

    // The number of its connection.
    pub fn connection(&self) -> Option<u32>
        ensures { result ≡ connection_at self.now }
    {
        let seat = self.seat.as_ref()?;
        Some(seat.receiver.connection)
    }

    // Whether a packet is taken, and what it wants. What is refused leaves everything as it was.
    pub fn admit(&self, packet: Packet<FromClient>) -> Result<Wanted, Refusal>
        ensures { result ≡ packet_admitted packet self.now }
    {
        let Packet {
            connection,
            number,
            ..
        } = packet;
        if packet.message == FromClient::New {
            return if connection == 0 && number == 1 {
                Ok(Wanted::Connection)
            } else {
                Err(Refusal::OtherConnection)
            };
        }
        let Some(seat) = &self.seat else {
            return Err(Refusal::OtherConnection);
        };
        seat.receiver.take(connection, number)?;
        Ok(Wanted::Message)
    }

    // The line gets a connection with that number, in place of the one that it had. Its text, as of place `base` of the history, is the
    // first message, in that packet.
    pub fn give(&mut self, connection: u32, base: u32, text: Vec<u8>)
        ensures { self.new ≡ Some (new_seat connection base text) }
    {
        self.seat = Some(Seat::new(connection, base, text));
    }

    // The connection ends.
    pub fn end(&mut self)
        ensures { self.new ≡ None }
    {
        self.seat = None;
    }

    // The message that was next has been taken.
    pub fn took(&mut self)
        ensures { self.new ≡ one_taken_at self.old }
    {
        if let Some(seat) = &mut self.seat {
            seat.receiver.last = seat.receiver.last.saturating_add(1);
        }
    }

    // The answer to a packet of that connection, taken or refused with 2: the last that was taken in the line's connection. Where it has
    // none, that the packet's has ended.
    pub fn answer(&self, connection: u32) -> Acknowledgement
        ensures { result ≡ server_answer connection self.now }
    {
        match &self.seat {
            None => Acknowledgement {
                connection: 0,
                last: connection,
            },
            Some(seat) => seat.receiver.acknowledgement(),
        }
    }

    // An acknowledgement has come: which messages may go now. One of another connection is passed over.
    pub fn hear(&mut self, acknowledgement: Acknowledgement) -> Option<Numbers>
        ensures answer { result ≡ sends_after_hearing acknowledgement self.old }
        ensures after { self.new ≡ after_hearing_at_server acknowledgement self.old }
    {
        match &mut self.seat {
            Some(seat) if seat.receiver.connection == acknowledgement.connection => {
                Some(seat.acknowledge(acknowledgement.last))
            }
            _ => None,
        }
    }

    // The history has an entry more: which messages may go now. Without a connection, or where its numbers are used up, none.
    pub fn grow(&mut self) -> Option<Numbers>
        ensures answer { result ≡ sends_after_growing self.old }
        ensures after { self.new ≡ grown self.old }
    {
        match &mut self.seat {
            None => None,
            Some(seat) => seat.window.push(),
        }
    }

    // What is sent again at a tick.
    pub fn tick(&self) -> Option<Numbers>
        ensures { result ≡ sends_again self.now }
    {
        let seat = self.seat.as_ref()?;
        Some(seat.window.under_way())
    }

    // Which message that number stands for, if it was ever to be sent.
    pub fn said(&self, number: u32) -> Option<Said>
        ensures { result ≡ said_under number self.now }
    {
        match &self.seat {
            None => None,
            Some(seat) => seat.said(number),
        }
    }

    // The packet with the text that the connection began with, until it is acknowledged.
    pub fn text(&self) -> Option<&[u8]>
        ensures { option_map (λ bytes. bytes.now) result ≡ text_kept self.now }
    {
        let seat = self.seat.as_ref()?;
        let text = seat.text.as_ref()?;
        Some(text.as_slice())
    }
}
