// A client's own edits: done to its text at once, and pending until they come back.
ghost use Rattle.std.specs.Prelude.{◌≡◌, ◌≢◌, true, Some};
ghost use Rattle.operation.specs.Edits.{site as site_of};
ghost use Rattle.text.specs.Texts.{refused};
ghost use Rattle.client.specs.Clients.{client_of, lowest, after_edit, answer_to};

use crate::client::{Client, PENDING_CAPACITY};
use crate::refusal::Refusal;
use operation::entry::Submission;
use operation::operation::Operation;
use text::document::RECORD_CAPACITY;
use text::refusal::Refusal as TextRefusal;

// Why an operation is refused while pending is full, given what the text says to it.
fn when_full(answer: Result<(), TextRefusal>) -> Refusal
    ensures { Some result ≡ lowest (refused answer) true }
{
    match answer {
        Ok(()) | Err(TextRefusal::TextFull) => Refusal::PendingFull,
        Err(refusal) => refusal.into(),
    }
}

impl Client {
    // Puts a letter in before the one at `place`, or at the end. The answer is what to send.
    pub fn insert(&mut self, place: u32, letter: u32) -> Result<Submission, Refusal>
        ensures answer { result ≡ answer_to (Operation.Insert (client_of self.old).site place letter) (client_of self.old) }
        ensures after { client_of self.new ≡ after_edit (Operation.Insert (client_of self.old).site place letter) (client_of self.old) }
    {
        let site = self.site();
        self.perform(Operation::Insert {
            site,
            place,
            letter,
        })
    }

    // Takes the letter at `place` away. The answer is what to send.
    pub fn delete(&mut self, place: u32) -> Result<Submission, Refusal>
        ensures answer { result ≡ answer_to (Operation.Delete (client_of self.old).site place) (client_of self.old) }
        ensures after { client_of self.new ≡ after_edit (Operation.Delete (client_of self.old).site place) (client_of self.old) }
    {
        let site = self.site();
        self.perform(Operation::Delete { site, place })
    }

    // Does an operation of its own, or refuses it and changes nothing.
    fn perform(&mut self, op: Operation) -> Result<Submission, Refusal>
        requires own { site_of op ≡ (client_of self.old).site }
        requires edits { op ≢ Operation.Noop (client_of self.old).site }
        ensures answer { result ≡ answer_to op (client_of self.old) }
        ensures after { client_of self.new ≡ after_edit op (client_of self.old) }
    {
        if self.pending_len() >= PENDING_CAPACITY {
            return Err(when_full(self.text.check(op, RECORD_CAPACITY)));
        }
        self.text.apply(op, RECORD_CAPACITY)?;
        if let Some(pending) = &mut self.pending {
            pending.push(op.into());
        }
        Ok(Submission {
            revision: self.revision,
            op,
        })
    }
}
