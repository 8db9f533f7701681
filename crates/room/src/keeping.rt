// The server's journal, in memory: what it keeps, and how the server starts from it.
ghost use Rattle.std.specs.Prelude.{◌≡◌, ◌≢◌, ℕ, Some, None, IfOk, OnOk, OnErr};
ghost use Rattle.server.specs.Servers.{room_of, state_of, resumed, restarted};
ghost use Rattle.journal.specs.declared.refusal.Refusal.{Refusal as Why};
ghost use Rattle.journal.specs.Contents.{Contents, counts_of, refusal};
ghost use Rattle.journal.specs.Journals.{JournalState, appended, committed};
ghost use Rattle.journal.specs.Openings.{Opens, NotOpens};
ghost use Rattle.room.specs.Kept.{WantsMemory};

use crate::host::Host;
use journal::error::{JournalError, OpenError};
use journal::journal::Journal;
use journal::memory::Memory;
use journal::record::Record;
use operation::entry::Entry;
use server::server::Server;
use std::alloc::{AllocError, Global};

// A journal in memory fails only for memory, since nothing is refused that the server has taken.
fn out_of_memory(error: JournalError) -> AllocError
    requires { WantsMemory error }
{
    match error {
        JournalError::Refused(_) => unreachable!(),
        JournalError::NotOpen | JournalError::Store(_) => AllocError,
    }
}

// The same, where it is opened: nothing is damaged, and memory does not hold more bytes than can be counted.
fn out_of_memory_opening(error: OpenError) -> AllocError
    requires { (n : ℕ) (why : Why) → error ≢ OpenError.Damaged n why }
{
    match error {
        OpenError::Damaged { .. } => unreachable!(),
        OpenError::Store(_) | OpenError::OutOfMemory => AllocError,
    }
}

// Puts an entry that can come next into the journal, where it stays through a crash. Where memory is wanting the journal is not open any more.
pub(crate) fn keep(journal: &mut Journal<Memory>, entry: Entry) -> Result<(), AllocError>
    requires { (c : Contents) → journal.old.contents ≡ Some c → refusal (Record.Entry entry) (counts_of c) ≡ None }
    ensures kept { OnOk result ((c : Contents) × (journal.old.contents ≡ Some c) × (journal.new ≡ committed (appended (Record.Entry entry) c journal.old))) }
    ensures failed { OnErr result (journal.new.contents ≡ None) }
{
    if let Err(error) = journal.append(Record::Entry(entry)) {
        return Err(out_of_memory(error));
    }
    if let Err(error) = journal.commit() {
        return Err(out_of_memory(error));
    }
    Ok(())
}

// Opens a journal that is not damaged, and makes the server from what it has. Nobody is connected.
pub(crate) fn start(heap: Global, journal: &mut Journal<Memory>) -> Result<Server, AllocError>
    requires { (now : JournalState) (n : ℕ) (why : Why) → NotOpens (OpenError.Damaged n why) journal.old now → ⊥ }
    ensures server { IfOk result (λ v. (room_of v ≡ 65536) × ((c : Contents) × (Opens journal.old journal.new c) × (state_of v ≡ resumed c.text c.history))) }
    ensures opened { (c : Contents) → journal.new.contents ≡ Some c → Opens journal.old journal.new c }
{
    let recovered = match journal.open(heap) {
        Ok(recovered) => recovered,
        Err(error) => return Err(out_of_memory_opening(error)),
    };
    Server::resume(heap, recovered.text, recovered.history).map_err(|_| AllocError)
}

impl Host {
    ghost use Rattle.room.specs.Scenes.{hosted};

    // The server crashes, and starts again from what its journal has kept.
    pub(crate) fn crash(&mut self) -> Result<(), AllocError>
        ensures server { OnOk result (hosted self.new ≡ restarted 65536 (hosted self.old)) }
        ensures events { self.new.events ≡ self.old.events }
    {
        // Where memory was wanting the journal lacks what the server has taken.
        if !self.journal.is_open() {
            return Err(AllocError);
        }
        let heap = *self.events.allocator();
        self.journal.crash(0);
        self.server = start(heap, &mut self.journal)?;
        Ok(())
    }
}
