// What has to be known of a journal to tell which record can come next.
ghost use Rattle.std.specs.Prelude.{◌≡◌, None, true};
ghost use Rattle.text.specs.Texts.{refused, refusal_at};
ghost use Rattle.link.specs.Messages.{is_fit_operation};
ghost use Rattle.journal.specs.Contents.{entry_refusal, connection_refusal, refusal, why_not, counts_after};

use crate::record::Record;
use crate::refusal::Refusal;
use link::message::operation_can_be_said as can_be_said;
use operation::entry::{Entry, HISTORY_CAPACITY};
use operation::operation::Operation;
use text::document::RECORD_CAPACITY;
use text::refusal::Refusal as TextRefusal;

// The highest number of a connection.
pub const HIGHEST_CONNECTION: u32 = 4_294_967_294;

// How many entries there are, how many letters the text has, and the highest connection, 0 for none.
#[derive(Clone, Copy, PartialEq, Eq, Debug)]
pub struct Counts {
    pub entries: u32,
    pub letters: u32,
    pub connection: u32,
}

// Why an operation is refused in a text of so many letters, but for its letter.
fn check_place(op: Operation, letters: u32) -> Result<(), TextRefusal>
    ensures { is_fit_operation op ≡ true → refused result ≡ refusal_at 65536 letters op }
{
    match op {
        Operation::Noop { .. } => Ok(()),
        Operation::Insert { place, .. } if place > letters => Err(TextRefusal::BeyondText),
        Operation::Insert { .. } if letters as usize >= RECORD_CAPACITY => {
            Err(TextRefusal::TextFull)
        }
        Operation::Insert { .. } => Ok(()),
        Operation::Delete { place, .. } if place >= letters => Err(TextRefusal::BeyondText),
        Operation::Delete { .. } => Ok(()),
    }
}

impl Counts {
    // Why an entry that can be said cannot come next.
    fn check_entry(self, entry: Entry) -> Result<(), Refusal>
        ensures { is_fit_operation entry.op ≡ true → why_not result ≡ entry_refusal entry self }
    {
        match check_place(entry.op, self.letters) {
            Err(TextRefusal::BadLetter) => Err(Refusal::Malformed),
            Err(TextRefusal::BeyondText) => Err(Refusal::BeyondText),
            _ if entry.place != self.entries => Err(Refusal::NotNext),
            Err(TextRefusal::TextFull) => Err(Refusal::Full),
            Ok(()) if self.entries >= HISTORY_CAPACITY => Err(Refusal::Full),
            Ok(()) => Ok(()),
        }
    }

    fn check_connection(self, connection: u32) -> Result<(), Refusal>
        ensures { why_not result ≡ connection_refusal connection self }
    {
        if connection <= self.connection {
            Err(Refusal::NotAbove)
        } else if connection > HIGHEST_CONNECTION {
            Err(Refusal::Full)
        } else {
            Ok(())
        }
    }

    // Why a record cannot come next.
    pub fn check(self, next: Record) -> Result<(), Refusal>
        ensures { why_not result ≡ refusal next self }
    {
        match next {
            Record::Entry(entry) if !can_be_said(entry.op) => Err(Refusal::Malformed),
            Record::Entry(entry) => self.check_entry(entry),
            Record::Connection(connection) => self.check_connection(connection),
        }
    }

    // After a record that can come next.
    pub(crate) fn after(self, next: Record) -> Counts
        requires { refusal next self ≡ None }
        ensures { result ≡ counts_after next self }
    {
        match next {
            Record::Entry(entry) => Counts {
                entries: self.entries + 1,
                letters: match entry.op {
                    Operation::Noop { .. } => self.letters,
                    Operation::Insert { .. } => self.letters + 1,
                    Operation::Delete { .. } => self.letters - 1,
                },
                ..self
            },
            Record::Connection(connection) => Counts { connection, ..self },
        }
    }
}
