// A client of site 1 types, sees its own entries and another's, and refuses.
use client::client::{Client, PENDING_CAPACITY};
use client::refusal::Refusal;
use operation::entry::{Entry, Submission};
use operation::operation::Operation;
use std::test::Fail;
use text::document::Document;
use text::refusal::Refusal as TextRefusal;

fn insert(site: u8, place: u32, letter: u32) -> Operation {
    Operation::Insert {
        site,
        place,
        letter,
    }
}

// The client after an entry, and the number of the refusal, or 0.
fn outcome(seen: Result<Client, (Client, Refusal)>) -> (Client, u8) {
    match seen {
        Ok(client) => (client, 0),
        Err((client, refusal)) => (client, refusal.number()),
    }
}

#[test]
fn types_and_sees(rt: HostRuntime) -> Result<(), Fail> {
    let text = Document::with_capacity(rt.alloc(), 9)?;
    let mut client = Client::new(rt.alloc(), 1, 0, text)?;
    for (place, letter) in [(0, 98), (1, 99)] {
        let op = insert(1, place, letter);
        assert_eq!(rt;
            client.insert(place, letter),
            Ok(Submission { revision: 0, op })
        );
    }
    let cases: [(u32, Operation, u8, &[u32], usize); 7] = [
        (1, insert(0, 0, 97), 6, &[98, 99], 2),
        (0, insert(0, 0, 97), 0, &[97, 98, 99], 2),
        (0, insert(0, 0, 97), 6, &[97, 98, 99], 2),
        (1, insert(1, 1, 98), 0, &[97, 98, 99], 1),
        (
            2,
            Operation::Delete { site: 0, place: 9 },
            3,
            &[97, 98, 99],
            1,
        ),
        (2, Operation::Delete { site: 0, place: 1 }, 0, &[97, 99], 1),
        (3, insert(1, 1, 99), 0, &[97, 99], 0),
    ];
    for (place, op, number, letters, pending) in cases {
        let (next, got) = outcome(client.see(Entry { place, op }));
        client = next;
        assert_eq!(rt; got, number);
        assert!(rt; client.text().letters() == letters);
        assert_eq!(rt; client.pending_len(), pending);
    }
    assert!(rt; client.site() == 1 && client.revision() == 4);
    assert_eq!(rt;
        client.delete(0),
        Ok(Submission {
            revision: 4,
            op: Operation::Delete { site: 1, place: 0 },
        })
    );
    Ok(())
}

#[test]
fn refuses_the_lowest_number_first(rt: HostRuntime) -> Result<(), Fail> {
    let text = Document::with_capacity(rt.alloc(), PENDING_CAPACITY)?;
    let mut client = Client::new(rt.alloc(), 1, 0, text)?;
    assert_eq!(rt; client.delete(0), Err(Refusal::BeyondText));
    for _ in 0..PENDING_CAPACITY {
        assert!(rt; client.insert(0, 97).is_ok());
    }
    assert_eq!(rt; client.insert(257, 0), Err(Refusal::BadLetter));
    assert_eq!(rt; client.insert(257, 97), Err(Refusal::BeyondText));
    assert_eq!(rt; client.insert(256, 97), Err(Refusal::PendingFull));
    assert_eq!(rt; client.delete(0), Err(Refusal::PendingFull));
    let op = insert(0, 0, 97);
    let (same, number) = outcome(client.see(Entry { place: 0, op }));
    assert_eq!(rt; number, 7);
    assert_eq!(rt; same.text().len(), PENDING_CAPACITY);
    assert_eq!(rt; same.pending_len(), PENDING_CAPACITY);
    assert!(rt; same.report().is_none());
    let empty = Document::with_capacity(rt.alloc(), 0)?;
    assert!(rt; Client::new(rt.alloc(), 1, 1024, empty)?.report() == Some(1024));
    Ok(())
}

#[test]
fn begins_anew_where_there_is_room(rt: HostRuntime) -> Result<(), Fail> {
    let mut text = Document::with_capacity(rt.alloc(), 2)?;
    let mut client = Client::new(rt.alloc(), 1, 0, Document::with_capacity(rt.alloc(), 1)?)?;
    assert!(rt; client.insert(0, 98).is_ok() && text.apply(insert(0, 0, 97), 2).is_ok());
    assert!(rt; client.begin(2, 1, &text).is_ok() && client.text().letters() == [97].as_slice());
    assert!(rt; client.site() == 2 && client.revision() == 1 && client.pending_len() == 0);
    assert!(rt; text.apply(insert(0, 0, 97), 2).is_ok());
    assert_eq!(rt; client.begin(3, 2, &text), Err(TextRefusal::TextFull));
    assert!(rt; client.site() == 2 && client.text().len() == 1);
    Ok(())
}

// Whether the client could type the letter.
fn types(client: &mut Client, place: u32, letter: u32) -> bool {
    client.insert(place, letter).is_ok()
}

// Whether the client has these letters, and as many operations pending.
fn shows(client: &Client, letters: &[u32]) -> bool {
    client.text().letters() == letters && client.pending_len() == letters.len()
}

// A clone has all that the client has, room too, and goes on by itself.
#[test]
fn clones(rt: HostRuntime) -> Result<(), Fail> {
    let text = Document::with_capacity(rt.alloc(), 9)?;
    let mut client = Client::new(rt.alloc(), 1, 3, text)?;
    assert!(rt; types(&mut client, 0, 97));
    let mut clone = client.clone()?;
    assert!(rt; types(&mut clone, 1, 98));
    assert!(rt; shows(&client, &[97]));
    assert!(rt; shows(&clone, &[97, 98]));
    assert!(rt; clone.site() == 1 && clone.revision() == 3 && clone.text().capacity() == 9);
    let bare = Client::stand_in(rt.alloc()).clone()?;
    assert!(rt; shows(&bare, &[]) && bare.text().capacity() == 0);
    Ok(())
}
