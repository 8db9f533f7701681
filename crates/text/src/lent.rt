// Edits of a text in lent memory: its letters, and beside them the site that typed each.
ghost use Rattle.std.specs.Prelude.{◌≡◌, ◌-◌, ◌<◌, length, take};
ghost use Rattle.operation.specs.Edits.{insert_at, delete_at};
ghost use Rattle.text.specs.Texts.{paired};

use crate::gap::{shift_down, shift_up};

// Puts a letter in before the one at `place`, and the last goes. What lies from there on is lent on, to be moved up.
pub(crate) fn insert(letters: &mut [u32], sites: &mut [u8], place: usize, letter: u32, site: u8)
    requires within { place < length letters.old }
    requires level { length sites.old ≡ length letters.old }
    ensures { paired letters.new sites.new ≡ insert_at place (record { number = letter; site = site }) (take (length letters.old - 1) (paired letters.old sites.old)) }
{
    shift_up(&mut letters[place..], letter);
    shift_up(&mut sites[place..], site);
}

// Takes the letter at `place` away, and the last then stands twice. What lies behind it is lent on, to be moved down.
pub(crate) fn delete(letters: &mut [u32], sites: &mut [u8], place: usize)
    requires within { place < length letters.old }
    requires level { length sites.old ≡ length letters.old }
    ensures { take (length letters.old - 1) (paired letters.new sites.new) ≡ delete_at place (paired letters.old sites.old) }
{
    shift_down(&mut letters[place..]);
    shift_down(&mut sites[place..]);
}
