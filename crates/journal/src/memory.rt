// A store in memory, which can crash.
ghost use Rattle.std.specs.Prelude.{◌≡◌, ◌+◌, ◌≤◌, ◌-◌, ◌++◌, [], Some, Ok, take, min, length, vec_len, ◌==◌, if◌then◌else◌, IfErr, OnOk, OnErr};
ghost use Rattle.std.specs.IoError.{error_kind};
ghost use Rattle.std.specs.declared.io.ErrorKind.TheVariants.{OutOfMemory};
ghost use Rattle.journal.specs.StoreLaws.{taken_first, taken_whole};
ghost use Rattle.journal.specs.Stores.{kept};

use crate::journal::Journal;
use crate::store::Store;
use std::alloc::Global;
use std::io;

#[derive(Drop)]
pub struct Memory {
    bytes: Vec<u8>,
    // How many of them have been read, and how many are synced.
    read: usize,
    synced: usize,
    ghost read_in: { read ≤ vec_len bytes },
    ghost synced_in: { synced ≤ vec_len bytes },
}

impl Memory {
    pub fn new(heap: Global) -> Memory
        ensures bytes { result.bytes.items ≡ [] }
        ensures read { result.read ≡ 0 }
        ensures synced { result.synced ≡ 0 }
    {
        Memory {
            bytes: Vec::new(heap),
            read: 0,
            synced: 0,
        }
    }

    // All that it holds.
    pub fn bytes(&self) -> &[u8]
        ensures { result.now ≡ self.now.bytes.items }
    {
        self.bytes.as_slice()
    }

    // A crash leaves what is synced, and of the rest some first part: here so many bytes, if there are so many.
    pub fn crash(&mut self, left: usize)
        ensures bytes { self.new.bytes.items ≡ take (kept left self.old.synced (length self.old.bytes.items)) self.old.bytes.items }
        ensures read { self.new.read ≡ 0 }
        ensures synced { self.new.synced ≡ self.old.synced }
    {
        self.read = 0;
        let left = left.min(self.bytes.len()).max(self.synced);
        self.bytes.truncate(left);
    }
}

// Only putting in can fail, where memory is wanting.
impl Store for Memory {
    ghost bytes = { λ m. take m.read m.bytes.items };

    ghost all = { λ m. Some m.bytes.items };

    ghost at_end = { λ m. m.read == length m.bytes.items };

    ghost synced = { λ m. m.synced };

    ghost fails_with = { λ e. error_kind e ≡ OutOfMemory };

    ghost begins = { λ m. taken_first m.read m.bytes.items };

    ghost whole = { λ m end. taken_whole m.read m.bytes.items end };

    fn rewind(&mut self) -> io::Result<()>
        ensures done { result ≡ Ok tt }
        ensures bytes { self.new.bytes.items ≡ self.old.bytes.items }
        ensures read { self.new.read ≡ 0 }
        ensures synced { self.new.synced ≡ self.old.synced }
    {
        self.read = 0;
        Ok(())
    }

    #[tactic(auto, using(crate::proofs::Parts::read_more))]
    fn read(&mut self, part: &mut [u8]) -> io::Result<usize>
        ensures done { result ≡ Ok (self.new.read - self.old.read) }
        ensures bytes { self.new.bytes.items ≡ self.old.bytes.items }
        ensures read { self.new.read ≡ min (self.old.read + length part.old) (length self.old.bytes.items) }
        ensures part { take self.new.read self.new.bytes.items ≡ take self.old.read self.old.bytes.items ++ take (self.new.read - self.old.read) part.new }
        ensures synced { self.new.synced ≡ self.old.synced }
    {
        let count = part.len().min(self.bytes.len() - self.read);
        part[..count].copy_from_slice(&self.bytes[self.read..self.read + count]);
        self.read += count;
        Ok(count)
    }

    fn append(&mut self, part: &[u8]) -> io::Result<()>
        ensures done { OnOk result ((self.new.bytes.items ≡ self.old.bytes.items ++ part.now) × (self.new.read ≡ (if self.old.read == length self.old.bytes.items then length self.new.bytes.items else self.old.read))) }
        ensures why { IfErr result (λ e. error_kind e ≡ OutOfMemory) }
        ensures failed { OnErr result ((self.new.bytes.items ≡ self.old.bytes.items) × (self.new.read ≡ self.old.read)) }
        ensures synced { self.new.synced ≡ self.old.synced }
    {
        let at_end = self.read == self.bytes.len();
        self.bytes.extend_from_slice(part)?;
        if at_end {
            self.read = self.bytes.len();
        }
        Ok(())
    }

    #[tactic(auto, using(crate::proofs::Parts::all_read))]
    fn sync(&mut self) -> io::Result<()>
        ensures done { result ≡ Ok tt }
        ensures bytes { self.new.bytes.items ≡ self.old.bytes.items }
        ensures read { self.new.read ≡ self.old.read }
        ensures synced { self.new.synced ≡ length self.old.bytes.items }
    {
        self.synced = self.bytes.len();
        Ok(())
    }

    fn cut(&mut self, length: u64) -> io::Result<()>
        ensures done { result ≡ Ok tt }
        ensures bytes { self.new.bytes.items ≡ take length self.old.bytes.items }
        ensures read { self.new.read ≡ min length self.old.read }
        ensures synced { self.new.synced ≡ min length self.old.synced }
    {
        let length = length as usize;
        self.bytes.truncate(length);
        self.read = self.read.min(length);
        self.synced = self.synced.min(length);
        Ok(())
    }
}

impl Journal<Memory> {
    ghost use Rattle.journal.specs.Journals.{crashed};

    // The server crashes: what is synced is left, and of the rest so many bytes. The journal has to be opened again.
    pub fn crash(&mut self, left: usize)
        ensures { self.new ≡ crashed left self.old }
    {
        self.counts = None;
        self.store.crash(left);
    }
}
