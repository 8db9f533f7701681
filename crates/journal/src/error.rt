// Why a call of the journal does nothing, or fails.
ghost use Rattle.std.specs.Prelude.{◌≡◌};
ghost use Rattle.journal.specs.declared.error.JournalError.TheVariants as journal;
ghost use Rattle.journal.specs.declared.error.OpenError.TheVariants as opening;

use crate::refusal::Refusal;
use std::alloc::{AllocError, AllocFailed};
use std::io;

#[derive(Clone, Copy, Debug)]
pub enum JournalError {
    // The journal has not been opened, or a call of its store has failed since.
    NotOpen,
    // What was to be written cannot come next.
    Refused(Refusal),
    // A call of the store failed. The journal has to be opened again.
    Store(io::Error),
}

impl From<Refusal> for JournalError {
    ghost from_gives = { λ why e. e ≡ journal.Refused why };

    fn from(refusal: Refusal) -> JournalError {
        JournalError::Refused(refusal)
    }
}

impl From<io::Error> for JournalError {
    ghost from_gives = { λ error e. e ≡ journal.Store error };

    fn from(error: io::Error) -> JournalError {
        JournalError::Store(error)
    }
}

// Why a journal is not opened.
#[derive(Clone, Copy, Debug)]
pub enum OpenError {
    // What stands at this byte cannot come next. The store is as it was.
    Damaged { at: u64, refusal: Refusal },
    Store(io::Error),
    OutOfMemory,
}

impl From<io::Error> for OpenError {
    ghost from_gives = { λ error e. e ≡ opening.Store error };

    fn from(error: io::Error) -> OpenError {
        OpenError::Store(error)
    }
}

impl From<AllocError> for OpenError {
    ghost from_gives = { λ _ e. e ≡ opening.OutOfMemory };

    fn from(_: AllocError) -> OpenError {
        OpenError::OutOfMemory
    }
}

impl<T: Drop> From<AllocFailed<T>> for OpenError {
    ghost from_gives = { λ _ e. e ≡ opening.OutOfMemory };

    fn from(_: AllocFailed<T>) -> OpenError {
        OpenError::OutOfMemory
    }
}
