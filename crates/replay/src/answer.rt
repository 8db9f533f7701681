// What a command is answered.
ghost use Rattle.std.specs.Prelude.{◌≡◌};

use journal::error::{JournalError, OpenError};
use journal::refusal::Refusal;
use std::fmt;

#[derive(Clone, Copy, PartialEq, Eq, Debug)]
pub enum Answer {
    Opened {
        entries: u32,
        letters: u32,
        connection: u32,
    },
    // What stands at that byte cannot come next.
    Damaged {
        at: u64,
        refusal: Refusal,
    },
    Written,
    Committed,
    Filled,
    Refused(Refusal),
    NotOpen,
    // The file, or memory, fails.
    Failed,
}

impl From<JournalError> for Answer {
    ghost use Rattle.replay.specs.Answers.{answer_of};

    ghost from_gives = { λ error answer. answer ≡ answer_of error };

    fn from(error: JournalError) -> Answer {
        match error {
            JournalError::NotOpen => Answer::NotOpen,
            JournalError::Refused(refusal) => Answer::Refused(refusal),
            JournalError::Store(_) => Answer::Failed,
        }
    }
}

impl From<OpenError> for Answer {
    ghost use Rattle.replay.specs.Answers.{answer_of_opening};

    ghost from_gives = { λ error answer. answer ≡ answer_of_opening error };

    fn from(error: OpenError) -> Answer {
        match error {
            OpenError::Damaged { at, refusal } => Answer::Damaged { at, refusal },
            OpenError::Store(_) | OpenError::OutOfMemory => Answer::Failed,
        }
    }
}

impl fmt::Display for Answer {
    ghost use Rattle.std.specs.Prelude.{Some};
    ghost use Rattle.replay.specs.Answers.{line_of};

    ghost output = { λ answer. Some (line_of answer) };

    fn fmt<W: fmt::Write>(&self, f: &mut fmt::Formatter<W>) -> fmt::Result {
        match self {
            Answer::Opened {
                entries,
                letters,
                connection,
            } => write!(
                f,
                "opened: {entries} entries, {letters} letters, connection {connection}"
            ),
            Answer::Damaged { at, refusal } => {
                write!(f, "damaged at {at}: refused {}", refusal.number())
            }
            Answer::Written => write!(f, "written"),
            Answer::Committed => write!(f, "committed"),
            Answer::Filled => write!(f, "filled"),
            Answer::Refused(refusal) => write!(f, "refused {}", refusal.number()),
            Answer::NotOpen => write!(f, "not open"),
            Answer::Failed => write!(f, "failed"),
        }
    }
}
