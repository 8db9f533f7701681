// Examples of the table, and of a list.
use operation::entry::Entry;
use operation::operation::Operation;
use operation::transform::{transform, transform_through};

fn insert(site: u8, place: u32) -> Operation {
    Operation::Insert {
        site,
        place,
        letter: 97,
    }
}

fn delete(site: u8, place: u32) -> Operation {
    Operation::Delete { site, place }
}

fn noop(site: u8) -> Operation {
    Operation::Noop { site }
}

// Every cell of the table at each order of the two places, and both ways of the tie.
#[test]
fn follows_the_table(rt: HostRuntime) {
    let cases = [
        (insert(1, 5), insert(2, 4), insert(1, 6)),
        (insert(1, 5), insert(0, 5), insert(1, 6)),
        (insert(1, 5), insert(2, 5), insert(1, 5)),
        (insert(1, 5), insert(0, 6), insert(1, 5)),
        (insert(1, 5), delete(2, 4), insert(1, 4)),
        (insert(1, 5), delete(2, 5), insert(1, 5)),
        (insert(1, 5), delete(2, 6), insert(1, 5)),
        (delete(1, 5), insert(2, 4), delete(1, 6)),
        (delete(1, 5), insert(2, 5), delete(1, 6)),
        (delete(1, 5), insert(2, 6), delete(1, 5)),
        (delete(1, 5), delete(2, 4), delete(1, 4)),
        (delete(1, 5), delete(2, 5), noop(1)),
        (delete(1, 5), delete(2, 6), delete(1, 5)),
        (insert(1, 5), noop(2), insert(1, 5)),
        (delete(1, 5), noop(2), delete(1, 5)),
        (noop(1), insert(2, 0), noop(1)),
        (noop(1), delete(2, 0), noop(1)),
        (noop(1), noop(2), noop(1)),
        (insert(1, u32::MAX), insert(2, 0), insert(1, u32::MAX)),
        (delete(1, u32::MAX), insert(2, 0), delete(1, u32::MAX)),
    ];
    for (a, b, want) in cases {
        assert_eq!(rt; transform(a, b), want);
    }
}

fn entry(place: u32, op: Operation) -> Entry {
    Entry { place, op }
}

// Site 0 inserts at 1; site 1 had inserted at 1 and at 2 and deleted at 0. Each goes past the other, and the entries keep their places.
#[test]
fn goes_through_a_list(rt: HostRuntime) {
    let mut list = [
        entry(7, insert(1, 1)),
        entry(8, insert(1, 2)),
        entry(9, delete(1, 0)),
    ];
    assert_eq!(rt; transform_through(insert(0, 1), &mut list), insert(0, 0));
    assert_eq!(rt; list[0], entry(7, insert(1, 2)));
    assert_eq!(rt; list[1], entry(8, insert(1, 3)));
    assert_eq!(rt; list[2], entry(9, delete(1, 0)));
}
