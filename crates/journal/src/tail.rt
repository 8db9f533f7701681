// What is left at the end of a journal and is no whole record: the first part of one that could have come next, or damage.
ghost use Rattle.std.specs.Prelude.{◌≡◌, ◌≤◌, ◌++◌, true, length, drop, ◌==◌};
ghost use Rattle.std.specs.List.{list_all};
ghost use Rattle.journal.specs.Contents.{why_not};
ghost use Rattle.journal.specs.Replaying.{is_short, entry_end, connection_end, completed, tail_refusal};

use crate::counts::Counts;
use crate::record::{CONNECTION, CONNECTION_LENGTH, ENTRY, Record, record_of};
use crate::refusal::Refusal;
use link::entry_bytes::ENTRY_LENGTH;

// The kind of an operation that inserts, and where it stands.
const INSERT: u8 = 1;

const KIND: usize = 6;

// An entry that could come next: its place is the next, and the rest is the least that fits what is there. A letter is at least 1.
fn entry_end(counts: Counts, tail: &[u8]) -> [u8; ENTRY_LENGTH]
    ensures { result ≡ entry_end counts tail.now }
{
    let [a, b, c, d] = counts.entries.to_be_bytes();
    let last = match tail.get(KIND) {
        Some(&INSERT) => 1,
        _ => 0,
    };
    [ENTRY, a, b, c, d, 0, 0, 0, 0, 0, 0, 0, 0, 0, last]
}

fn are_highest(bytes: &[u8]) -> bool
    ensures { result ≡ list_all (λ b. b == 255) bytes.now }
{
    bytes.iter().all(|byte| *byte == 255)
}

// The highest connection that begins so.
fn connection_end(tail: &[u8]) -> [u8; CONNECTION_LENGTH]
    ensures { result ≡ connection_end tail.now }
{
    let last = match tail {
        [_, number @ ..] if !are_highest(number) => 255,
        _ => 254,
    };
    [CONNECTION, 255, 255, 255, last]
}

// Puts the tail in front.
fn complete(tail: &[u8], end: &mut [u8])
    requires { length tail.now ≤ length end.old }
    ensures { end.new ≡ tail.now ++ drop (length tail.now) end.old }
{
    end[..tail.len()].copy_from_slice(tail);
}

// The record that it may be the first part of.
fn completed(counts: Counts, tail: &[u8]) -> Option<Record>
    requires { is_short tail.now ≡ true }
    ensures { result ≡ completed counts tail.now }
{
    match tail.first() {
        Some(&CONNECTION) => {
            let mut bytes = connection_end(tail);
            complete(tail, &mut bytes);
            record_of(&bytes)
        }
        _ => {
            let mut bytes = entry_end(counts, tail);
            complete(tail, &mut bytes);
            record_of(&bytes)
        }
    }
}

// Why these bytes cannot stand at the end of a journal with so many records, if they cannot.
#[tactic(auto, using(crate::proofs::Finds::none_short, crate::proofs::Finds::judged))]
pub(crate) fn check_tail(counts: Counts, tail: &[u8]) -> Result<(), Refusal>
    requires { is_short tail.now ≡ true }
    ensures { why_not result ≡ tail_refusal counts tail.now }
{
    if tail.is_empty() {
        return Ok(());
    }
    match completed(counts, tail) {
        Some(record) => counts.check(record),
        None => Err(Refusal::Malformed),
    }
}
