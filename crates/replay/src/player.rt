// A journal in a file, and what its records make.
use crate::answer::Answer;
use crate::filling::filler;
use journal::disk::Disk;
use journal::error::JournalError;
use journal::journal::Journal;
use journal::record::Record;
use journal::recovered::Recovered;
use operation::operation::Operation;
use std::alloc::{AllocError, Global};
use std::io;
use std::io::Write;
use text::document::{Document, RECORD_CAPACITY};

// The text and the history of an open journal.
#[derive(Drop)]
struct Contents {
    text: Document,
    history: Vec<Operation>,
}

impl Contents {
    fn entries(&self) -> u32 {
        u32::try_from(self.history.len()).unwrap_or(u32::MAX)
    }

    fn letters(&self) -> u32 {
        u32::try_from(self.text.len()).unwrap_or(u32::MAX)
    }

    // Takes in what the journal has taken.
    fn take(&mut self, record: Record) -> Result<(), AllocError> {
        if let Record::Entry(entry) = record {
            self.history.push(entry.op)?;
            // The journal has found that it fits.
            let _ = self.text.apply(entry.op, RECORD_CAPACITY);
        }
        Ok(())
    }
}

#[derive(Drop)]
pub struct Player {
    // None until it is opened first, as is its file.
    journal: Option<Journal<Disk>>,
    // None where it is not open.
    contents: Option<Contents>,
}

impl Player {
    pub(crate) fn new() -> Player {
        Player {
            journal: None,
            contents: None,
        }
    }

    // Opens the journal in the file at that path, again if it is open.
    pub(crate) fn open(&mut self, rt: &HostRuntime, path: &str) -> Answer {
        self.contents = None;
        if self.journal.is_none() {
            self.journal = Disk::open(rt, path).ok().map(Journal::new);
        }
        let Some(journal) = &mut self.journal else {
            return Answer::Failed;
        };
        let Recovered {
            text,
            history,
            connection,
        } = match journal.open(rt.alloc()) {
            Ok(recovered) => recovered,
            Err(error) => return Answer::from(error),
        };
        let contents = Contents { text, history };
        let answer = Answer::Opened {
            entries: contents.entries(),
            letters: contents.letters(),
            connection,
        };
        self.contents = Some(contents);
        answer
    }

    // What a call that fails is answered. If its file failed the journal is not open any more.
    fn failed(&mut self, error: JournalError) -> Answer {
        if let JournalError::Store(_) = error {
            self.contents = None;
        }
        Answer::from(error)
    }

    pub(crate) fn append(&mut self, record: Record) -> Result<Answer, AllocError> {
        let Some(journal) = &mut self.journal else {
            return Ok(Answer::NotOpen);
        };
        if let Err(error) = journal.append(record) {
            return Ok(self.failed(error));
        }
        if let Some(contents) = &mut self.contents {
            contents.take(record)?;
        }
        Ok(Answer::Written)
    }

    pub(crate) fn commit(&mut self) -> Answer {
        let Some(journal) = &mut self.journal else {
            return Answer::NotOpen;
        };
        match journal.commit() {
            Ok(()) => Answer::Committed,
            Err(error) => self.failed(error),
        }
    }

    // Appends so many entries, with a commit behind each `every`, if that is not 0.
    pub(crate) fn fill(&mut self, count: u32, every: u32) -> Result<Answer, AllocError> {
        for number in 1..=count {
            let Some(contents) = &self.contents else {
                break;
            };
            let entry = filler(contents.entries(), contents.letters());
            match self.append(Record::Entry(entry))? {
                Answer::Written => {}
                answer => return Ok(answer),
            }
            if every != 0 && number % every == 0 {
                match self.commit() {
                    Answer::Committed => {}
                    answer => return Ok(answer),
                }
            }
        }
        Ok(match self.contents {
            Some(_) => Answer::Filled,
            None => Answer::NotOpen,
        })
    }

    // Prints how many entries the history has, and each letter with its site.
    pub(crate) fn show<W: Write>(&self, out: &mut W) -> io::Result<()> {
        let Some(contents) = &self.contents else {
            return writeln!(out, "{}", Answer::NotOpen);
        };
        write!(out, "{} entries:", contents.history.len())?;
        let letters = contents.text.letters();
        for (letter, site) in letters.iter().zip(contents.text.sites()) {
            write!(out, " {letter}/{site}")?;
        }
        writeln!(out)
    }
}
