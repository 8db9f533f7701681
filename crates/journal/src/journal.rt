// The journal: records behind one another in a store.
ghost use Rattle.std.specs.Prelude.{◌≡◌, ℕ, ◌++◌, take, IsTrue, true, None, Some, Ok, Err, OnOk, OnErr, IfErr, IsSome, is_some, MatchResult};
ghost use Rattle.link.specs.Messages.{is_fit_operation};
ghost use Rattle.journal.specs.declared.refusal.Refusal.{Refusal as Why};
ghost use Rattle.journal.specs.Records.{spelled, WhenEntry, CanBeWritten};
ghost use Rattle.journal.specs.Stores.{now_all};
ghost use Rattle.journal.specs.declared.error.JournalError.TheVariants.{NotOpen, Refused};
ghost use Rattle.journal.specs.Contents.{Contents, counts_of, refusal};
ghost use Rattle.journal.specs.Journals.{closed_around, appended, committed, stopped, torn, IsStoreError};

use crate::counts::Counts;
use crate::error::JournalError;
use crate::record::{Record, spell_connection};
use crate::store::Store;
use link::entry_bytes::spell_entry;
use std::io;
use std::marker::Model;

#[derive(Drop)]
pub struct Journal<S: Store> {
    pub(crate) store: S,
    // None where it is not open.
    pub(crate) counts: Option<Counts>,
}

impl<S: Store> Model for Journal<S> {
    ghost use Rattle.journal.specs.Journals.{JournalState, contents_if, Tied};

    ghost Value = { JournalState };

    ghost view = { λ j. record { bytes = S.bytes j.store; all = S.all j.store; synced = S.synced j.store; contents = contents_if j.counts (S.bytes j.store) } };

    ghost invariant = { λ j. Tied j.counts (S.bytes j.store) (S.at_end j.store) };
}

// Puts a record that can come next behind what the store has.
fn put<S: Store>(store: &mut S, next: Record) -> io::Result<()>
    requires { WhenEntry (λ e. is_fit_operation e.op ≡ true) next }
    ensures can { CanBeWritten next }
    ensures why { IfErr result (λ e. S.fails_with e) }
    ensures bytes { OnOk result (IsTrue (S.at_end store.old) → S.bytes store.new ≡ S.bytes store.old ++ spelled next) }
    ensures failed { OnErr result (IsTrue (S.at_end store.old) → (n : ℕ) × (S.bytes store.new ≡ S.bytes store.old ++ take n (spelled next))) }
    ensures all { IsTrue (S.at_end store.old) → S.all store.new ≡ now_all (S.bytes store.new) (S.all store.old) }
    ensures end { IsTrue (S.at_end store.old) → IsTrue (S.at_end store.new) }
    ensures synced { S.synced store.new ≡ S.synced store.old }
{
    match next {
        Record::Entry(entry) => store.append(&spell_entry(entry).unwrap()),
        Record::Connection(connection) => store.append(&spell_connection(connection)),
    }
}

impl<S: Store> Journal<S> {
    // A journal in that store, which has to be opened first.
    pub fn new(store: S) -> Journal<S>
        ensures { result ≡ closed_around (S.bytes store) (S.all store) (S.synced store) }
    {
        Journal {
            store,
            counts: None,
        }
    }

    // Can records be put in?
    pub fn is_open(&self) -> bool
        ensures { result ≡ is_some self.now.contents }
    {
        self.counts.is_some()
    }

    // Puts a record behind the others. It is in the file through a crash once it is committed.
    #[tactic(auto, using(crate::proofs::Growing::held_more, crate::proofs::Growing::counts_more))]
    pub fn append(&mut self, next: Record) -> Result<(), JournalError>
        ensures closed { self.old.contents ≡ None → (result ≡ Err NotOpen) × (self.new ≡ self.old) }
        ensures refused { (c : Contents) (why : Why) → self.old.contents ≡ Some c → refusal next (counts_of c) ≡ Some why → (result ≡ Err (Refused why)) × (self.new ≡ self.old) }
        ensures taken { (c : Contents) → self.old.contents ≡ Some c → refusal next (counts_of c) ≡ None
            → MatchResult result (λ _. self.new ≡ appended next c self.old) (λ e. IsStoreError S.fails_with e × (n : ℕ) × (self.new ≡ torn n next self.old)) }
    {
        let Some(counts) = self.counts else {
            return Err(JournalError::NotOpen);
        };
        counts.check(next)?;
        self.counts = None;
        put(&mut self.store, next)?;
        self.counts = Some(counts.after(next));
        Ok(())
    }

    // All that was put in stays through a crash.
    pub fn commit(&mut self) -> Result<(), JournalError>
        ensures closed { self.old.contents ≡ None → (result ≡ Err NotOpen) × (self.new ≡ self.old) }
        ensures done { OnOk result (self.new ≡ committed self.old) }
        ensures failed { OnErr result (self.new ≡ stopped self.old) }
        ensures why { IfErr result (λ e. IsSome self.old.contents → IsStoreError S.fails_with e) }
    {
        let Some(counts) = self.counts else {
            return Err(JournalError::NotOpen);
        };
        self.counts = None;
        self.store.sync()?;
        self.counts = Some(counts);
        Ok(())
    }
}
