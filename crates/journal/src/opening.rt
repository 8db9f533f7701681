// A journal is opened: what its records make, and what is cut off.
ghost use Rattle.std.specs.Prelude.{◌≡◌, ◌≤◌, ◌⊎◌, IsTrue, Some, length, take, drop, min, IfOk, IfErr, OnOk, OnErr};
ghost use Rattle.journal.specs.Stores.{now_all};
ghost use Rattle.journal.specs.Contents.{nothing_yet};
ghost use Rattle.journal.specs.Journals.{closed_around};
ghost use Rattle.journal.specs.Openings.{contents_in, CanFailSo, Opens, NotOpens, FailsBy};

use crate::error::OpenError;
use crate::journal::Journal;
use crate::recovered::Recovered;
use crate::replay::{Progress, read_all};
use crate::store::Store;
use crate::tail::check_tail;
use std::alloc::Global;
use std::io;

// How many bytes are read at once.
const PART: usize = 65_536;

// Cuts off what is behind the whole records, if something is, and syncs.
fn cut_back<S: Store>(store: &mut S, progress: Progress) -> io::Result<()>
    requires end { IsTrue (S.at_end store.old) }
    requires left { length (drop progress.at (S.bytes store.old)) ≡ progress.left }
    ensures why { IfErr result (λ e. S.fails_with e) }
    ensures done { OnOk result ((S.bytes store.new ≡ take progress.at (S.bytes store.old)) × (S.synced store.new ≡ length (S.bytes store.new)) × IsTrue (S.at_end store.new)) }
    ensures all { S.all store.new ≡ now_all (S.bytes store.new) (S.all store.old) }
    ensures failed { OnErr result ((S.bytes store.new ≡ S.bytes store.old × S.synced store.new ≡ S.synced store.old) ⊎ ((S.bytes store.new ≡ take progress.at (S.bytes store.old)) × (S.synced store.new ≡ min progress.at (S.synced store.old)))) }
{
    if progress.left > 0 {
        store.cut(progress.at)?;
    }
    store.sync()
}

// Reads a store and takes in its records. The first part of one more at the end is cut off.
fn settle<S: Store>(
    store: &mut S,
    buffer: &mut [u8],
    recovered: &mut Recovered,
) -> Result<(), OpenError>
    requires room { 15 ≤ length buffer.old }
    requires empty { contents_in recovered.old ≡ nothing_yet }
    ensures opened { OnOk result (Opens (closed_around (S.bytes store.old) (S.all store.old) (S.synced store.old)) (record { bytes = S.bytes store.new; all = S.all store.new; synced = S.synced store.new; contents = Some (contents_in recovered.new) }) (contents_in recovered.new)) }
    ensures end { OnOk result (IsTrue (S.at_end store.new)) }
    ensures why { IfErr result (λ e. CanFailSo S.fails_with e) }
    ensures failed { IfErr result (λ e. FailsBy e (closed_around (S.bytes store.old) (S.all store.old) (S.synced store.old)) (closed_around (S.bytes store.new) (S.all store.new) (S.synced store.new))) }
{
    let progress = read_all(store, buffer, recovered)?;
    if let Err(refusal) = check_tail(recovered.counts(), &buffer[..progress.left]) {
        return Err(OpenError::Damaged {
            at: progress.at,
            refusal,
        });
    }
    cut_back(store, progress)?;
    Ok(())
}

// The same, in memory of its own.
fn recover<S: Store>(heap: Global, store: &mut S) -> Result<Recovered, OpenError>
    ensures opened { IfOk result (λ r. Opens (closed_around (S.bytes store.old) (S.all store.old) (S.synced store.old)) (record { bytes = S.bytes store.new; all = S.all store.new; synced = S.synced store.new; contents = Some (contents_in r) }) (contents_in r)) }
    ensures end { OnOk result (IsTrue (S.at_end store.new)) }
    ensures why { IfErr result (λ e. CanFailSo S.fails_with e) }
    ensures failed { IfErr result (λ e. FailsBy e (closed_around (S.bytes store.old) (S.all store.old) (S.synced store.old)) (closed_around (S.bytes store.new) (S.all store.new) (S.synced store.new))) }
{
    let mut buffer = vec![in heap; 0u8; PART]?;
    let mut recovered = Recovered::new(heap)?;
    settle(store, buffer.as_mut_slice(), &mut recovered)?;
    Ok(recovered)
}

impl<S: Store> Journal<S> {
    // Reads the whole records from the start. The first part of one more at the end is cut off, and all is synced. Where something else
    // stands there, the store is left as it was.
    pub fn open(&mut self, heap: Global) -> Result<Recovered, OpenError>
        ensures opened { IfOk result (λ r. Opens self.old self.new (contents_in r)) }
        ensures why { IfErr result (λ e. CanFailSo S.fails_with e) }
        ensures failed { IfErr result (λ e. NotOpens e self.old self.new) }
    {
        self.counts = None;
        let recovered = recover(heap, &mut self.store)?;
        self.counts = Some(recovered.counts());
        Ok(recovered)
    }
}
