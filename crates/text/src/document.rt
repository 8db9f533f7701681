// A text in memory of its own. To edit it, it lends its letters and sites.
ghost use Rattle.std.specs.Prelude.{◌≡◌, ◌<◌, ◌≤◌, min, [], length, IfOk, IsOk};
ghost use Rattle.operation.specs.Edits.{insert_at, delete_at};
ghost use Rattle.text.specs.Texts.{numbers, authors, refusal_at, refusal, refused};
ghost use Rattle.text.specs.Documents.{with_letters, changed, copied, copy_refusal};

use crate::lent;
use crate::refusal::Refusal;
use operation::operation::Operation;
use std::alloc::{AllocError, Global};
use std::marker::Model;

// The highest number of a letter; the lowest is 1.
pub const HIGHEST_LETTER: u32 = 1_114_111;

// How many letters a record has at most.
pub const RECORD_CAPACITY: usize = 65_536;

// Why an operation is refused in a text of `len` letters with room for `room`, by the lowest number.
// A place is cast to the width of a length, here and below: std has no `From` for that.
fn check(op: Operation, len: usize, room: usize) -> Result<(), Refusal>
    ensures { refused result ≡ refusal_at room len op }
{
    match op {
        Operation::Noop { .. } => Ok(()),
        Operation::Insert { place, letter, .. } => {
            if letter == 0 || letter > HIGHEST_LETTER {
                Err(Refusal::BadLetter)
            } else if place as usize > len {
                Err(Refusal::BeyondText)
            } else if len >= room {
                Err(Refusal::TextFull)
            } else {
                Ok(())
            }
        }
        Operation::Delete { place, .. } => {
            if place as usize >= len {
                Err(Refusal::BeyondText)
            } else {
                Ok(())
            }
        }
    }
}

// The letters and the site of each are two vectors, since by a rule of the project the letters are lent as a slice of 32-bit numbers.
// Both have memory for `room` letters, so that an insertion needs none; they may have more.
#[derive(Drop)]
pub struct Document {
    letters: Vec<u32>,
    sites: Vec<u8>,
    room: usize,
}

impl Model for Document {
    ghost use Rattle.std.specs.Prelude.{length, vec_capacity};
    ghost use Rattle.text.specs.Texts.{paired};
    ghost use Rattle.text.specs.Documents.{TextState, Fills};

    ghost Value = { TextState };

    ghost view = { λ d. record { letters = paired d.letters.items d.sites.items; room = d.room } };

    ghost invariant = { λ d. Fills d.room (length d.letters.items) (length d.sites.items) (vec_capacity d.letters) (vec_capacity d.sites) };
}

impl Clone for Document {
    ghost is_clone = { λ d e. e ≡ d };

    fn clone(&self) -> Result<Document, AllocError> {
        let mut copy = Document::with_capacity(*self.letters.allocator(), self.room)?;
        // There is as much room, so this is never refused.
        let _ = copy.copy_from(self);
        Ok(copy)
    }
}

impl Document {
    // An empty text with room for no letter, which needs no memory.
    #[tactic(auto, unfolding(crate::specs::Texts::paired))]
    pub fn new(heap: Global) -> Document
        ensures { result ≡ record { letters = []; room = 0 } }
    {
        Document {
            letters: Vec::new(heap),
            sites: Vec::new(heap),
            room: 0,
        }
    }

    // An empty text with room for `capacity` letters.
    #[tactic(auto, unfolding(crate::specs::Texts::paired))]
    pub fn with_capacity(heap: Global, capacity: usize) -> Result<Document, AllocError>
        ensures { IfOk result (λ d. d ≡ record { letters = []; room = capacity }) }
    {
        Ok(Document {
            letters: Vec::with_capacity(heap, capacity)?,
            sites: Vec::with_capacity(heap, capacity)?,
            room: capacity,
        })
    }

    // How many letters it has room for.
    pub fn capacity(&self) -> usize
        ensures { result ≡ self.now.room }
    {
        self.room
    }

    #[tactic(auto, using(crate::proofs::Views::sizes))]
    pub fn len(&self) -> usize
        ensures value { result ≡ length self.now.letters }
        ensures bound { result ≤ self.now.room }
    {
        self.letters.len()
    }

    // Why the operation is refused in a text that may have up to `limit` letters, if it is.
    pub fn check(&self, op: Operation, limit: usize) -> Result<(), Refusal>
        ensures { refused result ≡ refusal (min self.now.room limit) op self.now.letters }
    {
        check(op, self.len(), self.capacity().min(limit))
    }

    // Puts a letter in before the one at `place`, or at the end.
    #[tactic(auto, using(crate::proofs::Views::sizes))]
    fn insert(&mut self, place: usize, letter: u32, site: u8)
        requires within { place ≤ length self.old.letters }
        requires has_room { length self.old.letters < self.old.room }
        ensures { self.new ≡ with_letters (insert_at place (record { number = letter; site = site }) self.old.letters) self.old }
    {
        self.letters.push_reserved(letter);
        self.sites.push_reserved(site);
        lent::insert(
            self.letters.as_mut_slice(),
            self.sites.as_mut_slice(),
            place,
            letter,
            site,
        );
    }

    // Takes the letter at `place` away.
    #[tactic(auto, using(crate::proofs::Views::sizes))]
    fn delete(&mut self, place: usize)
        requires { place < length self.old.letters }
        ensures { self.new ≡ with_letters (delete_at place self.old.letters) self.old }
    {
        let left = self.len() - 1;
        lent::delete(
            self.letters.as_mut_slice(),
            self.sites.as_mut_slice(),
            place,
        );
        self.letters.truncate(left);
        self.sites.truncate(left);
    }

    // Does the operation to a text that may have up to `limit` letters, or refuses it and changes nothing.
    pub fn apply(&mut self, op: Operation, limit: usize) -> Result<(), Refusal>
        ensures answer { refused result ≡ refusal (min self.old.room limit) op self.old.letters }
        ensures text { self.new ≡ changed limit op self.old }
    {
        self.check(op, limit)?;
        match op {
            Operation::Noop { .. } => {}
            Operation::Insert {
                site,
                place,
                letter,
            } => self.insert(place as usize, letter, site),
            Operation::Delete { place, .. } => self.delete(place as usize),
        }
        Ok(())
    }

    #[tactic(auto, unfolding(crate::specs::Texts::paired))]
    pub fn clear(&mut self)
        ensures { self.new ≡ with_letters [] self.old }
    {
        self.letters.clear();
        self.sites.clear();
    }

    // The letters' numbers, in order.
    #[tactic(auto, using(crate::proofs::Views::numbers_are))]
    pub fn letters(&self) -> &[u32]
        ensures { result.now ≡ numbers self.now.letters }
    {
        self.letters.as_slice()
    }

    // The site of each letter, in the same order.
    #[tactic(auto, using(crate::proofs::Views::authors_are))]
    pub fn sites(&self) -> &[u8]
        ensures { result.now ≡ authors self.now.letters }
    {
        self.sites.as_slice()
    }

    // Takes over the other's text, or refuses it where there is no room, and changes nothing. Where there is as much room as in the
    // other it is never refused.
    #[tactic(auto, using(crate::proofs::Views::sizes))]
    pub fn copy_from(&mut self, other: &Document) -> Result<(), Refusal>
        ensures answer { refused result ≡ copy_refusal self.old.room other.now.letters }
        ensures text { self.new ≡ with_letters (copied self.old.room other.now.letters self.old.letters) self.old }
        ensures fits { other.now.room ≤ self.old.room → IsOk result }
    {
        if other.len() > self.capacity() {
            return Err(Refusal::TextFull);
        }
        self.clear();
        // The memory is there, so neither fails.
        let _ = self.letters.extend_from_slice(other.letters.as_slice());
        let _ = self.sites.extend_from_slice(other.sites.as_slice());
        Ok(())
    }
}
