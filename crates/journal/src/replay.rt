// A journal is read from its start, part by part.
ghost use Rattle.std.specs.Prelude.{◌≡◌, ℕ, ◌+◌, ◌<◌, ◌≤◌, ◌^◌, true, false, Some, length, take, drop, None, IsTrue, IfOk, OnOk, IfErr, IfSome};
ghost use Rattle.journal.specs.Contents.{counts_of, nothing_yet};
ghost use Rattle.journal.specs.Records.{AreBytes};
ghost use Rattle.journal.specs.Replaying.{behind, is_short, front_refusal};
ghost use Rattle.journal.specs.Openings.{contents_in, CanFailSo, known, Blames, Reads, IsStuck};

use crate::error::OpenError;
use crate::record;
use crate::recovered::Recovered;
use crate::store::Store;
use std::io::ErrorKind;

// Takes in the whole records at the front of some bytes, which stand behind `start` others: how many bytes they have.
#[tactic(auto, using(crate::proofs::Finds::found_nothing, crate::proofs::Finds::found_none, crate::proofs::Finds::refused_there, crate::proofs::Finds::none_whole, crate::proofs::Finds::there_whole, crate::proofs::Finds::fits_there, crate::proofs::Finds::taken_there, crate::proofs::Finds::none_taken, crate::proofs::Finds::none_left))]
fn replay(bytes: &[u8], start: u64, recovered: &mut Recovered) -> Result<usize, OpenError>
    requires { start + length bytes.now < 2 ^ 64 }
    ensures bytes { AreBytes bytes.now }
    ensures within { IfOk result (λ n. n ≤ length bytes.now) }
    ensures taken { IfOk result (λ n. behind (take n bytes.now) (contents_in recovered.old) ≡ Some (contents_in recovered.new)) }
    ensures short { IfOk result (λ n. is_short (drop n bytes.now) ≡ true) }
    ensures refused { IfErr result (λ e. (n : ℕ) × (n ≤ length bytes.now) × (behind (take n bytes.now) (contents_in recovered.old) ≡ Some (contents_in recovered.new)) × (is_short (drop n bytes.now) ≡ false) × Blames e (start + n) (front_refusal (counts_of (contents_in recovered.new)) (drop n bytes.now))) }
{
    let mut count = 0;
    while count < bytes.len() {
        let at = start + count as u64;
        let found = match record::find(&bytes[count..]) {
            Ok(found) => found,
            Err(refusal) => return Err(OpenError::Damaged { at, refusal }),
        };
        let Some(record) = found else {
            break;
        };
        recovered.take(at, record)?;
        count += record.length();
    }
    Ok(count)
}

// How many bytes have been taken in, and how many behind them stand at the front of the buffer.
#[derive(Clone, Copy)]
pub(crate) struct Progress {
    pub(crate) at: u64,
    pub(crate) left: usize,
}

// Reads what comes next and takes in the whole records. Nothing is read at the end.
#[tactic(auto, using(crate::proofs::PartRead::stuck, crate::proofs::PartRead::more))]
fn read_part<S: Store>(
    store: &mut S,
    buffer: &mut [u8],
    was: Progress,
    recovered: &mut Recovered,
) -> Result<Option<Progress>, OpenError>
    requires room { 15 ≤ length buffer.old }
    requires reads { Reads (S.bytes store.old) buffer.old was.at was.left (contents_in recovered.old) }
    ensures more { IfOk result (λ o. IfSome o (λ p. Reads (S.bytes store.new) buffer.new p.at p.left (contents_in recovered.new))) }
    ensures end { IfOk result (λ o. o ≡ None → IsTrue (S.at_end store.new) × Reads (S.bytes store.new) buffer.new was.at was.left (contents_in recovered.new)) }
    ensures why { IfErr result (λ e. CanFailSo S.fails_with e) }
    ensures stuck { IfErr result (λ e. IsStuck (known (S.all store.new) (S.bytes store.new)) e) }
    ensures all { S.all store.new ≡ S.all store.old }
    ensures synced { S.synced store.new ≡ S.synced store.old }
{
    let got = store.read(&mut buffer[was.left..])?;
    if got == 0 {
        return Ok(None);
    }
    let filled = was.left + got;
    if was.at.checked_add(filled as u64).is_none() {
        return Err(OpenError::Store(ErrorKind::FileTooLarge.into()));
    }
    let taken = replay(&buffer[..filled], was.at, recovered)?;
    buffer.copy_within(taken..filled, 0);
    Ok(Some(Progress {
        at: was.at + taken as u64,
        left: filled - taken,
    }))
}

// Reads a store from its start to its end and takes in its whole records. What is left, and is no whole record, stands at the front of the buffer.
pub(crate) fn read_all<S: Store>(
    store: &mut S,
    buffer: &mut [u8],
    recovered: &mut Recovered,
) -> Result<Progress, OpenError>
    requires room { 15 ≤ length buffer.old }
    requires empty { contents_in recovered.old ≡ nothing_yet }
    ensures read { IfOk result (λ p. Reads (S.bytes store.new) buffer.new p.at p.left (contents_in recovered.new)) }
    ensures end { OnOk result (IsTrue (S.at_end store.new)) }
    ensures why { IfErr result (λ e. CanFailSo S.fails_with e) }
    ensures stuck { IfErr result (λ e. IsStuck (known (S.all store.new) (S.bytes store.new)) e) }
    ensures all { S.all store.new ≡ S.all store.old }
    ensures synced { S.synced store.new ≡ S.synced store.old }
{
    store.rewind()?;
    let mut progress = Progress { at: 0, left: 0 };
    for _ in 0..u64::MAX {
        match read_part(store, buffer, progress, recovered)? {
            Some(more) => progress = more,
            None => return Ok(progress),
        }
    }
    // So many parts no file has.
    Err(OpenError::Store(ErrorKind::FileTooLarge.into()))
}
