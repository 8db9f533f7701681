// A client's end of its line: which connection it has, what it takes of it, and what it sends in it.
ghost use Rattle.std.specs.Prelude.{◌≡◌, IfOk, OnErr, OnOk};
ghost use Rattle.link.specs.Connections.{request_packet, asking_above, text_admitted, entry_admitted, begun, after_entry, client_answer, heard_in_channel, channel_after_hearing, heard_by_client, after_hearing, client_sends, after_sending, client_packet, client_sends_again};

use crate::datagram::{Acknowledgement, Packet};
use crate::message::FromClient;
use crate::outbox::Outbox;
use crate::receiver::Receiver;
use crate::refusal::Refusal;
use crate::window::Numbers;
use std::alloc::{AllocError, Global};
use std::marker::Model;

// What a client hears in an acknowledgement.
#[derive(Clone, Copy, PartialEq, Eq, Debug)]
pub enum Heard {
    // These messages may go now.
    MaySend(Numbers),
    // Its connection has ended.
    Ended,
    // Nothing that concerns it.
    Nothing,
}

// What a client sends at a tick.
#[derive(Clone, Copy, PartialEq, Eq, Debug)]
pub enum Again {
    // It asks for a connection.
    Ask,
    // It sends these messages again.
    Messages(Numbers),
}

// One connection: what was taken of it, and what is to be sent in it.
#[derive(Drop)]
pub struct Channel {
    receiver: Receiver,
    outbox: Outbox<FromClient>,
}

impl Channel {
    // An acknowledgement has come.
    fn hear(&mut self, acknowledgement: Acknowledgement) -> Heard
        ensures answer { result ≡ heard_in_channel acknowledgement self.old }
        ensures after { self.new ≡ channel_after_hearing acknowledgement self.old }
    {
        let Acknowledgement { connection, last } = acknowledgement;
        if connection == 0 && last == self.receiver.connection {
            Heard::Ended
        } else if connection == self.receiver.connection {
            Heard::MaySend(self.outbox.acknowledge(last))
        } else {
            Heard::Nothing
        }
    }
}

// `highest` is the highest connection that it ever took: a program that is started again has to know it.
#[derive(Drop)]
pub struct ClientEnd {
    highest: u32,
    is_asking: bool,
    channel: Option<Channel>,
}

impl Model for ClientEnd {
    ghost use Rattle.link.specs.Connections.{ClientSide};

    ghost Value = { ClientSide };

    ghost view = { λ e. record { highest = e.highest; is_asking = e.is_asking; channel = e.channel } };
}

// How a client asks for a connection: the only packet under connection 0 that is taken.
pub fn request() -> Packet<FromClient>
    ensures { result ≡ request_packet }
{
    Packet {
        connection: 0,
        number: 1,
        message: FromClient::New,
    }
}

impl ClientEnd {
    // A client that has no connection, and asks for one.
    pub fn new(highest: u32) -> ClientEnd
        ensures { result ≡ asking_above highest }
    {
        ClientEnd {
            highest,
            is_asking: true,
            channel: None,
        }
    }

    // The highest connection that it ever took.
    pub fn highest(&self) -> u32
        ensures { result ≡ self.now.highest }
    {
        self.highest
    }

    pub fn is_asking(&self) -> bool
        ensures { result ≡ self.now.is_asking }
    {
        self.is_asking
    }

    // Whether a text in a packet with that number is taken: if its connection is higher than any that was taken before.
    pub fn admit_text(&self, connection: u32, number: u32) -> Result<(), Refusal>
        ensures { result ≡ text_admitted connection number self.now }
    {
        if connection <= self.highest {
            return Err(Refusal::OtherConnection);
        }
        if number != 1 {
            return Err(Refusal::NotNext);
        }
        Ok(())
    }

    // Whether an entry in a packet with that number is the next of the current connection.
    pub fn admit_entry(&self, connection: u32, number: u32) -> Result<(), Refusal>
        ensures { result ≡ entry_admitted connection number self.now }
    {
        let Some(channel) = &self.channel else {
            return Err(Refusal::OtherConnection);
        };
        channel.receiver.take(connection, number)?;
        Ok(())
    }

    // It has taken the text of a connection, and begins anew. What it had to send in another is dropped.
    pub fn begin(&mut self, heap: Global, connection: u32)
        ensures { self.new ≡ begun connection }
    {
        self.highest = connection;
        self.is_asking = false;
        self.channel = Some(Channel {
            receiver: Receiver {
                connection,
                last: 1,
            },
            outbox: Outbox::new(heap),
        });
    }

    // It has seen the entry that was next.
    pub fn saw_entry(&mut self)
        ensures { self.new ≡ after_entry self.old }
    {
        if let Some(channel) = &mut self.channel {
            channel.receiver.last = channel.receiver.last.saturating_add(1);
        }
    }

    // The last that it has taken in its connection, which is what it answers to a packet that it takes and to one that it refuses with 2.
    pub fn answer(&self) -> Option<Acknowledgement>
        ensures { result ≡ client_answer self.now }
    {
        let channel = self.channel.as_ref()?;
        Some(channel.receiver.acknowledgement())
    }

    // An acknowledgement has come.
    pub fn hear(&mut self, acknowledgement: Acknowledgement) -> Heard
        ensures answer { result ≡ heard_by_client acknowledgement self.old }
        ensures after { self.new ≡ after_hearing acknowledgement self.old }
    {
        let heard = match &mut self.channel {
            None => Heard::Nothing,
            Some(channel) => channel.hear(acknowledgement),
        };
        if heard == Heard::Ended {
            self.is_asking = true;
        }
        heard
    }

    // Puts a message behind the others: which may go now. Without a connection, and where its numbers are used up, nothing is sent;
    // and so where memory is wanting.
    pub fn send(&mut self, message: FromClient) -> Result<Option<Numbers>, AllocError>
        ensures answer { IfOk result (λ n. n ≡ client_sends message self.old) }
        ensures ok { OnOk result (self.new ≡ after_sending message self.old) }
        ensures err { OnErr result (self.new ≡ self.old) }
    {
        match &mut self.channel {
            None => Ok(None),
            Some(channel) => channel.outbox.push(message),
        }
    }

    // The packet with that number, as often as it is sent.
    pub fn packet(&self, number: u32) -> Option<Packet<FromClient>>
        ensures { result ≡ client_packet number self.now }
    {
        let channel = self.channel.as_ref()?;
        let message = channel.outbox.message(number)?;
        Some(Packet {
            connection: channel.receiver.connection,
            number,
            message,
        })
    }

    // What is sent at a tick.
    pub fn tick(&self) -> Again
        ensures { result ≡ client_sends_again self.now }
    {
        match &self.channel {
            Some(channel) if !self.is_asking => Again::Messages(channel.outbox.under_way()),
            _ => Again::Ask,
        }
    }
}
