// The entries of the history as a client sees them, one by one.
ghost use Rattle.std.specs.Prelude.{◌≡◌, ◌<◌};
ghost use Rattle.text.specs.Texts.{refusal, refused};
ghost use Rattle.text.specs.Coded.{coded};
ghost use Rattle.client.specs.Replicas.{passed, confirmed, received};
ghost use Rattle.client.specs.Clients.{client_of, with_replica, reasons, unless, merged, entry_refusal, after_entry, handed_back, refused_seeing, due};

use crate::client::Client;
use crate::refusal::Refusal;
use operation::entry::{Entry, HISTORY_CAPACITY};
use operation::operation::Operation;
use text::refusal::Refusal as TextRefusal;

// How many entries a client sees from one report to the next.
const REPORT_EVERY: u32 = 1024;

impl Client {
    // Sees the next entry: its own is no longer pending, and another's is done to the text, past all that is pending.
    // An entry that is refused changes nothing, and the client is handed back with the reason.
    pub fn see(self, entry: Entry) -> Result<Client, (Client, Refusal)>
        ensures answer { refused_seeing result ≡ entry_refusal entry (client_of self) }
        ensures after { client_of (handed_back result) ≡ after_entry entry (client_of self) }
    {
        if entry.place != self.revision || entry.place >= HISTORY_CAPACITY {
            Err((self, Refusal::NotNext))
        } else if entry.op.site() == self.site() {
            Ok(self.see_own())
        } else {
            self.see_other(entry.op)
        }
    }

    // The first of its pending operations has come back.
    fn see_own(mut self) -> Client
        requires { self.revision < 4294967294 }
        ensures { client_of result ≡ with_replica (confirmed coded (client_of self).replica) (client_of self) }
    {
        if let Some(pending) = &mut self.pending {
            pending.remove_first();
        }
        self.revision += 1;
        self
    }

    // Another's operation goes past all that is pending and is done to the text, or is refused and changes nothing.
    #[tactic(auto, using(std::proofs::lemmas::List::nil_from_length), unfolding(operation::specs::Transform::through))]
    fn merge(&mut self, op: Operation) -> Result<(), TextRefusal>
        ensures answer { refused result ≡ refusal (client_of self.old).room (passed coded op (client_of self.old).replica).one (client_of self.old).replica.text }
        ensures after { client_of self.new ≡ with_replica (unless (refused result) (merged op (client_of self.old).replica) (client_of self.old).replica) (client_of self.old) }
    {
        let room = self.text.capacity();
        let Some(pending) = &mut self.pending else {
            return self.text.apply(op, room);
        };
        if pending.len() == 0 {
            return self.text.apply(op, room);
        }
        // Kept for the case that the text refuses.
        let before = **pending;
        let passed = pending.pass(op);
        let answer = self.text.apply(passed, room);
        if answer.is_err() {
            **pending = before;
        }
        answer
    }

    // Sees an entry of another.
    fn see_other(mut self, op: Operation) -> Result<Client, (Client, Refusal)>
        requires { self.revision < 4294967294 }
        ensures answer { refused_seeing result ≡ reasons (refusal (client_of self).room (passed coded op (client_of self).replica).one (client_of self).replica.text) }
        ensures after { client_of (handed_back result) ≡ with_replica (unless (refused_seeing result) (received coded op (client_of self).replica) (client_of self).replica) (client_of self) }
    {
        match self.merge(op) {
            Ok(()) => {
                self.revision += 1;
                Ok(self)
            }
            Err(refusal) => Err((self, refusal.into())),
        }
    }

    // The revision to tell the server, if it is due.
    pub fn report(&self) -> Option<u32>
        ensures { result ≡ due (client_of self.now).replica.revision }
    {
        let due = self.revision > 0 && self.revision % REPORT_EVERY == 0;
        due.then_some(self.revision)
    }
}
