// The operations that a client has performed and that have not come back, the oldest first. All are of one site.
ghost use Rattle.std.specs.Prelude.{◌≡◌, ◌<◌, ◌≤◌, ◌∷◌, [], ◌++◌, length, drop, slice_index_or, slice_set};
ghost use Rattle.operation.specs.Edits.{site as site_of};
ghost use Rattle.operation.specs.Transform.{transformed, through};
ghost use Rattle.client.specs.declared.client.TheConstants.{PENDING_CAPACITY};

use crate::client::PENDING_CAPACITY;
use crate::kind::Kind;
use operation::operation::Operation;
use operation::transform::transform;

// What the arrays hold of an operation: all but its site.
#[derive(Clone, Copy)]
pub(crate) struct Slot {
    kind: Kind,
    place: u32,
    letter: u32,
}

impl Slot {
    ghost use Rattle.client.specs.Pendings.{operation_of};

    // The operation of a site that it stands for.
    fn operation(self, site: u8) -> Operation
        ensures { result ≡ operation_of site self }
    {
        let Slot {
            kind,
            place,
            letter,
        } = self;
        match kind {
            Kind::Noop => Operation::Noop { site },
            Kind::Insert => Operation::Insert {
                site,
                place,
                letter,
            },
            Kind::Delete => Operation::Delete { site, place },
        }
    }
}

impl From<Operation> for Slot {
    ghost use Rattle.client.specs.Pendings.{operation_of};

    ghost from_gives = { λ op slot. operation_of (site_of op) slot ≡ op };

    fn from(op: Operation) -> Slot {
        let (kind, place, letter) = match op {
            Operation::Noop { .. } => (Kind::Noop, 0, 0),
            Operation::Insert { place, letter, .. } => (Kind::Insert, place, letter),
            Operation::Delete { place, .. } => (Kind::Delete, place, 0),
        };
        Slot {
            kind,
            place,
            letter,
        }
    }
}

// The list is the first `count` places of the three arrays, which a rule of the project asks for.
// The site stands here, though each method then says that it stays: without it the list would be one of slots, which every caller had
// to turn into operations of its site.
#[derive(Clone, Copy)]
pub(crate) struct Pending {
    site: u8,
    kinds: [Kind; PENDING_CAPACITY],
    places: [u32; PENDING_CAPACITY],
    letters: [u32; PENDING_CAPACITY],
    count: usize,
    ghost few: { count ≤ PENDING_CAPACITY },
    ghost sized: { (length kinds ≡ PENDING_CAPACITY) × (length places ≡ PENDING_CAPACITY) × (length letters ≡ PENDING_CAPACITY) },
}

#[tactic(auto, using(crate::proofs::Joined::lengths))]
impl Pending {
    ghost use Rattle.client.specs.Pendings.{operation_of, pendings};

    // None of this site.
    pub(crate) fn new(site: u8) -> Pending
        ensures site { result.site ≡ site }
        ensures empty { pendings result ≡ [] }
    {
        Pending {
            site,
            kinds: [Kind::Noop; PENDING_CAPACITY],
            places: [0; PENDING_CAPACITY],
            letters: [0; PENDING_CAPACITY],
            count: 0,
        }
    }

    pub(crate) fn len(&self) -> usize
        ensures { result ≡ length (pendings self.now) }
    {
        self.count
    }

    // The operation at `i`.
    fn at(&self, i: usize) -> Operation
        requires { i < length (pendings self.now) }
        ensures value { result ≡ slice_index_or (pendings self.now) i (Operation.Noop 0) }
        ensures own { site_of result ≡ self.now.site }
    {
        let slot = Slot {
            kind: self.kinds[i],
            place: self.places[i],
            letter: self.letters[i],
        };
        slot.operation(self.site)
    }

    // Puts another in the place of the operation at `i`.
    fn set(&mut self, i: usize, slot: Slot)
        requires { i < length (pendings self.old) }
        ensures after { pendings self.new ≡ slice_set (pendings self.old) i (operation_of self.old.site slot) }
        ensures site { self.new.site ≡ self.old.site }
    {
        self.kinds[i] = slot.kind;
        self.places[i] = slot.place;
        self.letters[i] = slot.letter;
    }

    // Puts one behind the last.
    pub(crate) fn push(&mut self, slot: Slot)
        requires { length (pendings self.old) < PENDING_CAPACITY }
        ensures after { pendings self.new ≡ pendings self.old ++ operation_of self.old.site slot ∷ [] }
        ensures site { self.new.site ≡ self.old.site }
    {
        let last = self.count;
        self.count += 1;
        self.set(last, slot);
    }

    // Takes the first away, if there is one.
    pub(crate) fn remove_first(&mut self)
        ensures after { pendings self.new ≡ drop 1 (pendings self.old) }
        ensures site { self.new.site ≡ self.old.site }
    {
        let count = self.count;
        if count == 0 {
            return;
        }
        self.kinds.copy_within(1..count, 0);
        self.places.copy_within(1..count, 0);
        self.letters.copy_within(1..count, 0);
        self.count = count - 1;
    }

    // Passes `op` through the list: past each in turn, while each goes past `op` as it is by then. The answer is what `op` has become.
    // By the index: an iterator would have to go over three arrays in step.
    pub(crate) fn pass(&mut self, op: Operation) -> Operation
        ensures one { result ≡ (through transformed transformed op (pendings self.old)).one }
        ensures others { pendings self.new ≡ (through transformed transformed op (pendings self.old)).others }
        ensures site { self.new.site ≡ self.old.site }
    {
        let mut one = op;
        for i in 0..self.count {
            let old = self.at(i);
            self.set(i, transform(old, one).into());
            one = transform(one, old);
        }
        one
    }
}
