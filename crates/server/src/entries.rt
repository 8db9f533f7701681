// A list of entries, changed in place.
ghost use Rattle.std.specs.Prelude.{◌≡◌, ◌≤◌, length, take};
ghost use Rattle.server.specs.Sessions.{unseen};

use operation::entry::Entry;

// Leaves out the entries below `revision` and closes up in place. The answer is how many are left.
// A loop of its own, with an index, by a rule of the project: `retain` would do the same.
pub(crate) fn keep_unseen(list: &mut [Entry], revision: u32) -> usize
    ensures few { result ≤ length list.old }
    ensures kept { take result list.new ≡ unseen revision list.old }
{
    let mut count = 0;
    for i in 0..list.len() {
        let entry = list[i];
        if entry.place >= revision {
            list[count] = entry;
            count += 1;
        }
    }
    count
}
