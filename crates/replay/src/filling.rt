// The entries with which a journal is filled.
ghost use Rattle.std.specs.Prelude.{◌≡◌};
ghost use Rattle.replay.specs.Filling.{filler};

use operation::entry::Entry;
use operation::operation::Operation;

// How many letters the text has in the end, or one less.
const LETTERS: u32 = 1000;

// The entry at that place in the history, where the text has so many letters.
pub(crate) fn filler(place: u32, letters: u32) -> Entry
    ensures { result ≡ filler place letters }
{
    let site = (place % 16) as u8;
    let spread = u64::from(place) * 7919;
    let op = if letters < LETTERS {
        Operation::Insert {
            site,
            place: (spread % (u64::from(letters) + 1)) as u32,
            letter: u32::from(b'a') + place % 26,
        }
    } else {
        Operation::Delete {
            site,
            place: (spread % u64::from(letters)) as u32,
        }
    };
    Entry { place, op }
}
