// What an operation becomes that another was done before, or each of a list.
ghost use Rattle.std.specs.Prelude.{◌≡◌};
ghost use Rattle.operation.specs.Transform.{transformed, through};
ghost use Rattle.operation.specs.Commutes.{Commutes};
ghost use Rattle.operation.specs.Entries.{operations, replaced};

use crate::entry::Entry;
use crate::operation::Operation;

// What `a` becomes when `b` was done first. Of two that insert at one place the lower site's letter comes first.
pub fn transform<L: Copy>(a: Operation<L>, b: Operation<L>) -> Operation<L>
    ensures { result ≡ transformed a b }
{
    match a {
        Operation::Noop { .. } => a,
        Operation::Insert { site, place, .. } => match b {
            Operation::Noop { .. } => a,
            Operation::Insert {
                site: rival,
                place: at,
                ..
            } => {
                if at < place || (at == place && rival < site) {
                    a.moved(place.saturating_add(1))
                } else {
                    a
                }
            }
            Operation::Delete { place: gone, .. } => {
                if gone < place { a.moved(place - 1) } else { a }
            }
        },
        Operation::Delete {
            site,
            place: target,
        } => match b {
            Operation::Noop { .. } => a,
            Operation::Insert { place: at, .. } => {
                if at <= target {
                    a.moved(target.saturating_add(1))
                } else {
                    a
                }
            }
            Operation::Delete { place: gone, .. } => {
                if gone < target {
                    a.moved(target - 1)
                } else if gone == target {
                    Operation::Noop { site }
                } else {
                    a
                }
            }
        },
    }
}

// Passes `op` through the entries in place: past each in turn, while each goes past `op` as it is by then. The answer is what `op` has become.
pub fn transform_through<L: Copy>(
    op: Operation<L>,
    list: &mut [Entry<Operation<L>>],
) -> Operation<L>
    ensures one { result ≡ (through transformed transformed op (operations list.old)).one }
    ensures others { list.new ≡ replaced list.old (through transformed transformed op (operations list.old)).others }
    ensures tp1 { Commutes op (operations list.old) result (operations list.new) }
{
    let mut one = op;
    for entry in list.iter_mut() {
        let old = entry.op;
        entry.op = transform(old, one);
        one = transform(one, old);
    }
    one
}
