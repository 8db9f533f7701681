// Why something that came over a line is turned away.
ghost use Rattle.std.specs.Prelude.{◌≡◌};
ghost use Rattle.link.specs.Refusals.{number_of};
ghost use Rattle.link.specs.declared.refusal.WriteError.TheVariants.{OutOfMemory};

use std::alloc::{AllocError, AllocFailed};

#[derive(Clone, Copy, PartialEq, Eq, Debug)]
pub enum Refusal {
    // The bytes are no packet and no acknowledgement that this end is sent. They are passed over.
    Malformed,
    // A packet of another connection. It is answered with the last number that was taken in the current one.
    OtherConnection,
    // Its number is not the next. The answer is the same.
    NotNext,
}

impl Refusal {
    // The number by which a refusal is reported.
    pub fn number(self) -> u8
        ensures { result ≡ number_of self }
    {
        match self {
            Refusal::Malformed => 1,
            Refusal::OtherConnection | Refusal::NotNext => 2,
        }
    }
}

// Why something is not written.
#[derive(Clone, Copy, PartialEq, Eq, Debug)]
pub enum WriteError {
    // It is beyond what can be said on a line.
    Unfit,
    OutOfMemory,
}

impl From<AllocError> for WriteError {
    ghost from_gives = { λ _ e. e ≡ OutOfMemory };

    fn from(_e: AllocError) -> WriteError {
        WriteError::OutOfMemory
    }
}

impl<T: Drop> From<AllocFailed<T>> for WriteError {
    ghost from_gives = { λ _ e. e ≡ OutOfMemory };

    fn from(_e: AllocFailed<T>) -> WriteError {
        WriteError::OutOfMemory
    }
}
