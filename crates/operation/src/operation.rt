// One edit of a text.
ghost use Rattle.std.specs.Prelude.{◌≡◌};
ghost use Rattle.operation.specs.Edits.{moved_to};
ghost use Rattle.operation.specs.Edits.{site as site_of};

// The place of an insertion is before the letter that stands there, or at the end. `site` is the number of the client that made
// the edit, 0 to 15. A deletion whose letter is already gone is a `Noop`.
// The letter is a parameter: programs have numbers, and theorems about order have names that no two letters share.
#[derive(Clone, Copy, PartialEq, Eq, Debug)]
pub enum Operation<L = u32> {
    Noop { site: u8 },
    Insert { site: u8, place: u32, letter: L },
    Delete { site: u8, place: u32 },
}

impl<L: Copy> Operation<L> {
    // The number of the client that made it.
    pub fn site(self) -> u8
        ensures { result ≡ site_of self }
    {
        match self {
            Operation::Noop { site } => site,
            Operation::Insert { site, .. } => site,
            Operation::Delete { site, .. } => site,
        }
    }

    // The same edit at another place.
    pub(crate) fn moved(self, place: u32) -> Self
        ensures { result ≡ moved_to place self }
    {
        match self {
            Operation::Noop { .. } => self,
            Operation::Insert { site, letter, .. } => Operation::Insert {
                site,
                place,
                letter,
            },
            Operation::Delete { site, .. } => Operation::Delete { site, place },
        }
    }
}
