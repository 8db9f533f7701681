// An operation of a client is taken into the history and told to the others.
ghost use Rattle.std.specs.Prelude.{◌≡◌, ◌<◌, ◌≤◌, true, length, Err};
ghost use Rattle.operation.specs.Edits.{site as site_of};
ghost use Rattle.text.specs.Texts.{refused};
ghost use Rattle.text.specs.Coded.{coded};
ghost use Rattle.server.specs.Sessions.{arrival, sender};
ghost use Rattle.server.specs.Servers.{room_of, memory_of, seats, history_of, state_of, history_full, answered, with_seat, added, Leaves, Taking, take_answer, take_after};
ghost use Rattle.server.specs.Servers.{lowest as lowest_of};

use crate::refusal::Refusal;
use crate::seating::announce;
use crate::server::Server;
use operation::entry::{Entry, HISTORY_CAPACITY, Submission};
use operation::operation::Operation;
use text::document::RECORD_CAPACITY;
use text::refusal::Refusal as TextRefusal;

// Refuses an operation by the lowest number: for what the text says to it, a bad revision, or a full history.
fn lowest(answer: Result<(), TextRefusal>, bad: bool, full: bool) -> Result<(), Refusal>
    ensures { result ≡ answered (lowest_of (refused answer) bad full) tt }
{
    match answer {
        Err(TextRefusal::BadLetter) => Err(Refusal::BadLetter),
        Err(TextRefusal::BeyondText) => Err(Refusal::BeyondText),
        _ if bad => Err(Refusal::BadRevision),
        Err(TextRefusal::TextFull) => Err(Refusal::Full),
        Ok(()) if full => Err(Refusal::Full),
        Ok(()) => Ok(()),
    }
}

impl Server {
    // Does the history take no more?
    fn is_full(&self) -> bool
        ensures { result ≡ history_full (length (history_of self.now)) }
    {
        self.revision() >= HISTORY_CAPACITY
    }

    // An operation goes past what its client had not seen. The answer is what it has become.
    fn arrive(&mut self, submission: Submission) -> Operation
        requires { (seats self.old (site_of submission.op)).connected ≡ true }
        ensures one { result ≡ (arrival coded submission (seats self.old (site_of submission.op))).one }
        ensures after { Leaves self.old self.new (with_seat (site_of submission.op) (sender coded submission (seats self.old (site_of submission.op))) (state_of self.old)) }
        ensures reserved { memory_of self.new ≡ memory_of self.old }
    {
        let site = usize::from(submission.op.site());
        self.sessions[site].receive(submission)
    }

    // Puts an operation of the site at the end of the history, does it to the text and tells the other clients.
    fn add(&mut self, site: u8, op: Operation) -> Entry
        requires reserved { length (history_of self.old) < memory_of self.old }
        requires short { length (history_of self.old) < 4294967294 }
        ensures entry { result ≡ record { place = length (history_of self.old); op = op } }
        ensures after { Leaves self.old self.new (added (room_of self.old) site op (state_of self.old)) }
    {
        let entry = Entry {
            place: self.revision(),
            op,
        };
        self.history.push_reserved(op);
        // What the text refuses is not done to it, and the caller has asked it.
        let _ = self.text.apply(op, RECORD_CAPACITY);
        announce(self.sessions.as_mut_slice(), usize::from(site), entry);
        entry
    }

    // `take`, where the client is connected and there is memory.
    fn receive(&mut self, submission: Submission) -> Result<Entry, Refusal>
        requires connected { (seats self.old (site_of submission.op)).connected ≡ true }
        requires reserved { length (history_of self.old) < memory_of self.old }
        ensures answer { result ≡ take_answer (room_of self.old) submission (state_of self.old) }
        ensures after { Leaves self.old self.new (take_after (room_of self.old) submission (state_of self.old)) }
    {
        let site = submission.op.site();
        let bad = self.is_bad(site, submission.revision);
        let op = self.arrive(submission);
        let answer = self.text.check(op, RECORD_CAPACITY);
        if let Err(refusal) = lowest(answer, bad, self.is_full()) {
            self.end(site);
            return Err(refusal);
        }
        Ok(self.add(site, op))
    }

    // Takes an operation of a client: it goes past what the client had not seen, to the end of the history, to the text and to the other clients.
    // Refused is what comes from a site without a client, and, with the connection, what does not fit.
    // Memory is wanting only where the history has used up what it has.
    pub fn take(&mut self, submission: Submission) -> Result<Entry, Refusal>
        ensures memory { result ≡ Err Refusal.OutOfMemory → ((seats self.old (site_of submission.op)).connected ≡ true) × (memory_of self.old ≤ length (history_of self.old)) }
        ensures outcome { Taking submission self.old result self.new }
    {
        if !self.is_connected(submission.op.site()) {
            return Err(Refusal::NotConnected);
        }
        self.history.reserve(1)?;
        self.receive(submission)
    }
}
