// What the records of a journal make.
ghost use Rattle.std.specs.Prelude.{◌≡◌, ◌≤◌, vec_len, Some, IfOk, OnOk, IfErr};

use crate::counts::Counts;
use crate::error::OpenError;
use crate::record::Record;
use operation::operation::Operation;
use std::alloc::{AllocError, Global};
use text::document::{Document, RECORD_CAPACITY};

// The text and the history that its entries make, and the highest connection, 0 for none.
#[derive(Drop)]
pub struct Recovered {
    pub text: Document,
    pub history: Vec<Operation>,
    pub connection: u32,
    ghost room: { text.room ≡ 65536 },
    ghost short: { vec_len history ≤ 4294967294 },
}

impl Recovered {
    ghost use Rattle.journal.specs.Contents.{counts_of, next, nothing_yet, refusal};
    ghost use Rattle.journal.specs.Openings.{contents_in, Blames};

    // Of an empty journal.
    pub(crate) fn new(heap: Global) -> Result<Recovered, AllocError>
        ensures { IfOk result (λ r. contents_in r ≡ nothing_yet) }
    {
        Ok(Recovered {
            text: Document::with_capacity(heap, RECORD_CAPACITY)?,
            history: Vec::new(heap),
            connection: 0,
        })
    }

    pub(crate) fn counts(&self) -> Counts
        ensures { result ≡ counts_of (contents_in self.now) }
    {
        Counts {
            entries: self.history.len() as u32,
            letters: self.text.len() as u32,
            connection: self.connection,
        }
    }

    // Takes in the record that stands at that byte, if it can come next.
    pub(crate) fn take(&mut self, at: u64, record: Record) -> Result<(), OpenError>
        ensures taken { OnOk result (next «record» (contents_in self.old) ≡ Some (contents_in self.new)) }
        ensures refused { IfErr result (λ e. Blames e at (refusal «record» (counts_of (contents_in self.old))) × (contents_in self.new ≡ contents_in self.old)) }
    {
        if let Err(refusal) = self.counts().check(record) {
            return Err(OpenError::Damaged { at, refusal });
        }
        match record {
            Record::Entry(entry) => {
                self.history.push(entry.op)?;
                // The counts have told that it fits.
                let _ = self.text.apply(entry.op, RECORD_CAPACITY);
            }
            Record::Connection(connection) => self.connection = connection,
        }
        Ok(())
    }
}
