// What is reported of a command that was played.
use crate::refusal::Refusal;
use std::fmt;

#[derive(Clone, Copy, PartialEq, Eq, Debug)]
pub enum Event {
    // There was nothing to take, or nothing to see.
    Nothing,
    Refused(Refusal),
    // A client joined anew, and so many of its operations had not been taken.
    Lost { site: u8, count: u64 },
}

impl fmt::Display for Event {
    ghost use Rattle.std.specs.Prelude.{Some};
    ghost use Rattle.room.specs.Events.{printed};

    ghost output = { λ event. Some (printed event) };

    fn fmt<W: fmt::Write>(&self, f: &mut fmt::Formatter<W>) -> fmt::Result {
        match self {
            Event::Nothing => write!(f, "nothing"),
            Event::Refused(refusal) => write!(f, "refused {}", refusal.number()),
            Event::Lost { site, count } => write!(f, "{site}: lost {count}"),
        }
    }
}
