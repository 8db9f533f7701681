// What one end takes of a connection: each number once, one above the last.
ghost use Rattle.std.specs.Prelude.{◌≡◌};

use crate::datagram::Acknowledgement;
use crate::refusal::Refusal;

// The connection, and the last number that was taken in it.
#[derive(Clone, Copy, PartialEq, Eq, Debug)]
pub(crate) struct Receiver {
    pub(crate) connection: u32,
    pub(crate) last: u32,
}

impl Receiver {
    ghost use Rattle.link.specs.Numbering.{nothing_taken, taken, acknowledgement_of};

    // Nothing is taken yet.
    pub(crate) fn new(connection: u32) -> Receiver
        ensures { result ≡ nothing_taken connection }
    {
        Receiver {
            connection,
            last: 0,
        }
    }

    // As it is when a packet with that number has been taken, if it may be. A receiver is a value: what is refused leaves it as it was.
    pub(crate) fn take(self, connection: u32, number: u32) -> Result<Receiver, Refusal>
        ensures { result ≡ taken connection number self }
    {
        if connection != self.connection {
            return Err(Refusal::OtherConnection);
        }
        if self.last.checked_add(1) != Some(number) {
            return Err(Refusal::NotNext);
        }
        Ok(Receiver {
            connection,
            last: number,
        })
    }

    // What it answers.
    pub(crate) fn acknowledgement(self) -> Acknowledgement
        ensures { result ≡ acknowledgement_of self }
    {
        Acknowledgement {
            connection: self.connection,
            last: self.last,
        }
    }
}
