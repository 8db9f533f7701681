// A store in a file of the operating system.
ghost use Rattle.std.specs.Prelude.{◌≡◌, ◌++◌, [], length, ◌==◌, None, ⊤, IfOk};
ghost use Rattle.journal.specs.Disks.{told, told_by};

use crate::store::Store;
use http_server::Log;
use std::fs::{File, OpenOptions, TryLockError};
use std::io::{self, Read, Seek, SeekFrom, Write};

// The kinds of calls, as they are noted.
const REWOUND: u8 = 0;

const BYTE: u8 = 1;

const CUT: u8 = 2;

const SYNCED: u8 = 3;

const READ: u8 = 4;

// What was read of the file and what was put in are noted, in a list that only proofs read and that takes no memory.
#[derive(Drop)]
pub struct Disk {
    file: File,
    calls: Log<u8, u64>,
}

// The folder that a file is in.
fn folder_of(path: &str) -> &str {
    match path.rsplit_once('/') {
        Some(("", _)) => "/",
        Some((folder, _)) => folder,
        None => ".",
    }
}

impl Disk {
    // Opens the file, or makes it, and keeps everybody else away from it. That it is there stays through a crash.
    pub fn open(rt: &HostRuntime, path: &str) -> io::Result<Disk>
        ensures { IfOk result (λ d. d.calls.items ≡ []) }
    {
        let file = OpenOptions::new()
            .read(true)
            .append(true)
            .create(true)
            .open(rt, path)?;
        match file.try_lock() {
            Ok(()) => {}
            Err(TryLockError::Error(error)) => return Err(error),
            Err(TryLockError::WouldBlock) => return Err(io::ErrorKind::ResourceBusy.into()),
        }
        File::open(rt, folder_of(path))?.sync_all()?;
        Ok(Disk {
            file,
            calls: Log::new(),
        })
    }

    fn note(&mut self, kind: u8, number: u64)
        ensures { told self.new.calls.items ≡ told_by (kind, number) (told self.old.calls.items) }
    {
        self.calls = self.calls.and(&kind, &number);
    }

    fn note_bytes(&mut self, bytes: &[u8])
        ensures bytes { (told self.new.calls.items).bytes ≡ (told self.old.calls.items).bytes ++ bytes.now }
        ensures synced { (told self.new.calls.items).synced ≡ (told self.old.calls.items).synced }
        ensures ended { (told self.new.calls.items).ended ≡ (told self.old.calls.items).ended }
    {
        for byte in bytes {
            self.note(BYTE, u64::from(*byte));
        }
    }

    // They were read, where there was room for one at least.
    fn note_read(&mut self, bytes: &[u8])
        ensures bytes { (told self.new.calls.items).bytes ≡ (told self.old.calls.items).bytes ++ bytes.now }
        ensures synced { (told self.new.calls.items).synced ≡ (told self.old.calls.items).synced }
        ensures ended { (told self.new.calls.items).ended ≡ (length bytes.now == 0) }
    {
        self.note_bytes(bytes);
        self.note(READ, bytes.len() as u64);
    }
}

impl Store for Disk {
    ghost bytes = { λ d. (told d.calls.items).bytes };

    ghost all = { λ _. None };

    ghost at_end = { λ d. (told d.calls.items).ended };

    ghost synced = { λ d. (told d.calls.items).synced };

    ghost fails_with = { λ _. ⊤ };

    ghost begins = { λ _. tt };

    ghost whole = { λ _ _. tt };

    fn rewind(&mut self) -> io::Result<()> {
        self.file.seek(SeekFrom::Start(0))?;
        self.note(REWOUND, 0);
        Ok(())
    }

    fn read(&mut self, part: &mut [u8]) -> io::Result<usize> {
        if part.is_empty() {
            return Ok(0);
        }
        let count = self.file.read(part)?;
        self.note_read(&part[..count]);
        Ok(count)
    }

    fn append(&mut self, part: &[u8]) -> io::Result<()> {
        self.file.write_all(part)?;
        self.note_bytes(part);
        Ok(())
    }

    fn sync(&mut self) -> io::Result<()> {
        self.file.sync_data()?;
        self.note(SYNCED, 0);
        Ok(())
    }

    // A file that has no more bytes stays as it is.
    fn cut(&mut self, length: u64) -> io::Result<()> {
        if length < self.file.metadata()?.len() {
            self.file.set_len(length)?;
        }
        self.note(CUT, length);
        Ok(())
    }
}
