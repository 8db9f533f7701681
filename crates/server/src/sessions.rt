// What a client's calls do to what the server has of it.
ghost use Rattle.std.specs.Prelude.{◌≡◌, true, [], IfOk, is_some, unwrap_or};
ghost use Rattle.operation.specs.Entries.{operations};
ghost use Rattle.operation.specs.Transform.{transformed, through};
ghost use Rattle.text.specs.Coded.{coded};
ghost use Rattle.server.specs.Sessions.{free, joined_at, heard, told, arrival, sender};
ghost use Rattle.server.specs.Seats.{seat_of, bounded, passed};

use crate::entries::keep_unseen;
use crate::session::{CONCURRENT_CAPACITY, Session};
use operation::entry::{Entry, Submission};
use operation::operation::Operation;
use operation::transform::transform_through;
use std::alloc::{AllocError, Global};

impl Session {
    // Nobody is connected.
    pub(crate) fn new(heap: Global) -> Result<Session, AllocError>
        ensures { IfOk result (λ s. seat_of s ≡ free) }
    {
        let list = Vec::with_capacity(heap, CONCURRENT_CAPACITY)?;
        Ok(Session { said: None, list })
    }

    // Has the site a client?
    fn is_connected(&self) -> bool
        ensures { result ≡ (seat_of self.now).connected }
    {
        self.said.is_some()
    }

    // Nothing is left of what the client had not seen.
    fn reset(&mut self, said: Option<u32>)
        ensures { seat_of self.new ≡ record { connected = is_some said; said = unwrap_or said 0; concurrent = [] } }
    {
        self.list.clear();
        self.said = said;
    }

    // A client joins at a history of `revision` entries.
    pub(crate) fn open(&mut self, revision: u32)
        ensures { seat_of self.new ≡ joined_at revision }
    {
        self.reset(Some(revision));
    }

    // The connection is ended.
    pub(crate) fn close(&mut self)
        ensures { seat_of self.new ≡ free }
    {
        self.reset(None);
    }

    // The client has seen what is below `revision`.
    pub(crate) fn hear(&mut self, revision: u32)
        requires { (seat_of self.old).connected ≡ true }
        ensures { seat_of self.new ≡ heard revision (seat_of self.old) }
    {
        let kept = keep_unseen(self.list.as_mut_slice(), revision);
        self.list.truncate(kept);
        self.said = Some(revision);
    }

    // An operation of the client goes past what it had not seen, and this past the operation. The answer is what the operation has become.
    fn pass(&mut self, op: Operation) -> Operation
        ensures one { result ≡ (through transformed transformed op (operations (seat_of self.old).concurrent)).one }
        ensures seat { seat_of self.new ≡ passed op (seat_of self.old) }
    {
        transform_through(op, self.list.as_mut_slice())
    }

    // The client sends an operation that it made at a revision. The answer is what the operation has become.
    pub(crate) fn receive(&mut self, submission: Submission) -> Operation
        requires { (seat_of self.old).connected ≡ true }
        ensures one { result ≡ (arrival coded submission (seat_of self.old)).one }
        ensures seat { seat_of self.new ≡ sender coded submission (seat_of self.old) }
    {
        self.hear(submission.revision);
        self.pass(submission.op)
    }

    // The client is given one entry more, or has no connection any more if it has too many.
    pub(crate) fn tell(&mut self, entry: Entry)
        ensures { seat_of self.new ≡ bounded (told entry (seat_of self.old)) }
    {
        if !self.is_connected() {
            return;
        }
        if self.list.len() >= CONCURRENT_CAPACITY {
            self.close();
            return;
        }
        self.list.push_reserved(entry);
    }
}
