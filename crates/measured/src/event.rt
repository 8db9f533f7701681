// What happens at an end of a line, and what comes of it, in numbers.
ghost use Rattle.std.specs.Prelude.{◌≡◌};

use crate::datagram_row::DatagramRow;
use link::refusal::Refusal;
use link::window::Numbers;

// At either end.
pub(crate) const TICK: u8 = 0;

pub(crate) const PACKET: u8 = 1;

pub(crate) const HEAR: u8 = 2;

pub(crate) const MESSAGE: u8 = 3;

pub(crate) const ANSWER: u8 = 4;

// At a client's.
pub(crate) const BEGIN: u8 = 5;

pub(crate) const SAW: u8 = 6;

pub(crate) const SEND: u8 = 7;

// At the server's.
pub(crate) const GIVE: u8 = 5;

pub(crate) const TOOK: u8 = 6;

pub(crate) const GROW: u8 = 7;

pub(crate) const END: u8 = 8;

#[repr(C)]
#[derive(Clone, Copy)]
pub struct Event {
    pub kind: u8,
    pub datagram: DatagramRow,
}

#[repr(C)]
#[derive(Clone, Copy)]
pub struct Outcome {
    // 0 where nothing comes of it, 3 where it is refused.
    pub answer: u8,
    pub after: u32,
    pub count: u32,
    pub datagram: DatagramRow,
}

impl Outcome {
    ghost use Rattle.measured.specs.Ends.{answered, refused, numbered, numbered_if_any, shown};

    pub(crate) fn answered(answer: u8) -> Outcome
        ensures { result ≡ answered answer }
    {
        Outcome {
            answer,
            after: 0,
            count: 0,
            datagram: DatagramRow::bare(0, 0, 0),
        }
    }

    // With the number by which a refusal is reported.
    pub(crate) fn refused(refusal: Refusal) -> Outcome
        ensures { result ≡ refused refusal }
    {
        Outcome {
            after: u32::from(refusal.number()),
            ..Outcome::answered(3)
        }
    }

    // These messages are sent.
    pub(crate) fn numbered(answer: u8, numbers: Numbers) -> Outcome
        ensures { result ≡ numbered answer numbers }
    {
        Outcome {
            after: numbers.after,
            count: numbers.count,
            ..Outcome::answered(answer)
        }
    }

    pub(crate) fn numbered_if_any(numbers: Option<Numbers>) -> Outcome
        ensures { result ≡ numbered_if_any numbers }
    {
        match numbers {
            None => Outcome::answered(0),
            Some(numbers) => Outcome::numbered(1, numbers),
        }
    }

    pub(crate) fn shown(datagram: DatagramRow) -> Outcome
        ensures { result ≡ shown datagram }
    {
        Outcome {
            datagram,
            ..Outcome::answered(1)
        }
    }
}
