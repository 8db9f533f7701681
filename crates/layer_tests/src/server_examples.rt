// Two clients write at once; others are refused, go and come back.
use operation::entry::{Entry, Submission};
use operation::operation::Operation;
use server::joined::Joined;
use server::refusal::Refusal;
use server::server::Server;
use std::test::Fail;
use text::document::Document;

fn insert(site: u8, place: u32, letter: u32) -> Operation {
    Operation::Insert {
        site,
        place,
        letter,
    }
}

fn at(revision: u32, op: Operation) -> Submission {
    Submission { revision, op }
}

fn joined(site: u8, revision: u32, count: u32) -> Result<Joined, Refusal> {
    Ok(Joined {
        site,
        revision,
        count,
    })
}

fn entry(place: u32, op: Operation) -> Result<Entry, Refusal> {
    Ok(Entry { place, op })
}

#[test]
fn two_write_at_one_place(rt: HostRuntime) -> Result<(), Fail> {
    let text = Document::with_capacity(rt.alloc(), 9)?;
    let mut server = Server::new(rt.alloc(), text)?;
    assert_eq!(rt; server.join(3), joined(3, 0, 0));
    assert_eq!(rt; server.join(3), joined(15, 0, 0));
    assert_eq!(rt;
        server.take(at(0, insert(15, 0, 98))),
        entry(0, insert(15, 0, 98))
    );
    // The lower site's letter comes first.
    assert_eq!(rt;
        server.take(at(0, insert(3, 0, 97))),
        entry(1, insert(3, 0, 97))
    );
    // Site 3 has not seen the other's letter yet.
    assert_eq!(rt;
        server.take(at(0, insert(3, 1, 99))),
        entry(2, insert(3, 1, 99))
    );
    assert_eq!(rt;
        server.take(at(1, insert(15, 1, 100))),
        entry(3, insert(15, 3, 100))
    );
    assert!(rt; server.text().letters() == [97, 99, 98, 100].as_slice());
    assert!(rt; server.text().sites() == [3, 3, 15, 15].as_slice());
    assert!(rt; server.revision() == 4 && server.entry(4).is_none());
    assert_eq!(rt; server.join(3), joined(14, 4, 0));
    Ok(())
}

#[test]
fn goes_on_from_a_history(rt: HostRuntime) -> Result<(), Fail> {
    let mut text = Document::with_capacity(rt.alloc(), 9)?;
    let mut history = Vec::new(rt.alloc());
    for op in [insert(3, 0, 97), insert(15, 1, 98), insert(3, 0, 99)] {
        assert!(rt; text.apply(op, 9).is_ok());
        history.push(op)?;
    }
    let resumed = Server::resume(rt.alloc(), text, history);
    assert!(rt; resumed.is_ok());
    if let Ok(mut server) = resumed {
        assert!(rt; server.text().letters() == [99, 97, 98].as_slice());
        assert!(rt; server.revision() == 3);
        assert!(rt; !server.is_connected(3) && !server.is_connected(15));
        assert_eq!(rt; server.join(3), joined(3, 3, 2));
        assert_eq!(rt;
            server.take(at(3, insert(3, 3, 100))),
            entry(3, insert(3, 3, 100))
        );
    }
    Ok(())
}

#[test]
fn refuses(rt: HostRuntime) -> Result<(), Fail> {
    let text = Document::with_capacity(rt.alloc(), 9)?;
    let mut server = Server::new(rt.alloc(), text)?;
    let first = at(0, insert(7, 0, 97));
    assert_eq!(rt; server.take(first), Err(Refusal::NotConnected));
    assert_eq!(rt; server.join(7), joined(7, 0, 0));
    assert_eq!(rt;
        server.take(at(1, insert(7, 1, 97))),
        Err(Refusal::BeyondText)
    );
    assert_eq!(rt; server.hear(7, 0), Err(Refusal::NotConnected));
    assert_eq!(rt; server.join(7), joined(7, 0, 0));
    assert_eq!(rt; server.take(first), entry(0, insert(7, 0, 97)));
    assert_eq!(rt; server.hear(7, 1), Ok(()));
    assert_eq!(rt; server.take(first), Err(Refusal::BadRevision));
    assert_eq!(rt; server.join(200), joined(15, 1, 0));
    server.end(15);
    assert!(rt; !server.is_connected(15));
    assert_eq!(rt; server.join(7), joined(7, 1, 1));
    assert_eq!(rt; server.hear(7, 2), Err(Refusal::BadRevision));
    assert!(rt; server.revision() == 1 && server.text().len() == 1);
    Ok(())
}
