// A text of up to three letters, from empty to full and back, at both ends and beyond.
use operation::operation::Operation;
use std::alloc::Global;
use std::test::Fail;
use text::document::Document;
use text::refusal::Refusal;

fn insert(place: u32, letter: u32) -> Operation {
    Operation::Insert {
        site: 7,
        place,
        letter,
    }
}

fn delete(place: u32) -> Operation {
    Operation::Delete { site: 7, place }
}

// a of site 1 and b of site 2.
fn ab(heap: Global) -> Result<Document, Fail> {
    let mut text = Document::with_capacity(heap, 9)?;
    for site in 1..3u8 {
        let place = u32::from(site) - 1;
        let letter = 97 + place;
        let op = Operation::Insert {
            site,
            place,
            letter,
        };
        text.apply(op, 3)?;
    }
    Ok(text)
}

// Each is refused, and the text stays.
fn refuses_all(text: &mut Document, letters: &[u32], cases: &[(Operation, Refusal)]) -> bool {
    let mut all = true;
    for (op, reason) in cases {
        all &= text.check(*op, 3) == Err(*reason);
        all &= text.apply(*op, 3) == Err(*reason);
        all &= text.letters() == letters;
    }
    all
}

#[test]
fn refuses(rt: HostRuntime) -> Result<(), Fail> {
    let mut text = ab(rt.alloc())?;
    assert!(rt; text.len() == 2 && text.capacity() == 9);
    let cases = [
        (insert(3, 99), Refusal::BeyondText),
        (insert(2, 0), Refusal::BadLetter),
        (insert(9, 1_114_112), Refusal::BadLetter),
        (delete(2), Refusal::BeyondText),
    ];
    assert!(rt; refuses_all(&mut text, &[97, 98], &cases));
    assert!(rt; text.apply(insert(2, 1_114_111), 3).is_ok());
    let full = [
        (insert(0, 99), Refusal::TextFull),
        (insert(4, 99), Refusal::BeyondText),
        (insert(0, 0), Refusal::BadLetter),
    ];
    assert!(rt; refuses_all(&mut text, &[97, 98, 1_114_111], &full));
    Ok(())
}

#[test]
fn edits(rt: HostRuntime) -> Result<(), Fail> {
    let mut text = ab(rt.alloc())?;
    let cases: [(Operation, &[u32], &[u8]); 9] = [
        (Operation::Noop { site: 7 }, &[97, 98], &[1, 2]),
        (insert(2, 99), &[97, 98, 99], &[1, 2, 7]),
        (delete(1), &[97, 99], &[1, 7]),
        (insert(0, 1), &[1, 97, 99], &[7, 1, 7]),
        (delete(2), &[1, 97], &[7, 1]),
        (delete(0), &[97], &[1]),
        (insert(1, 98), &[97, 98], &[1, 7]),
        (delete(0), &[98], &[7]),
        (delete(0), &[], &[]),
    ];
    for (op, letters, sites) in cases {
        assert!(rt; text.check(op, 3).is_ok() && text.apply(op, 3).is_ok());
        assert!(rt; text.letters() == letters && text.sites() == sites);
    }
    assert_eq!(rt; text.apply(delete(0), 3), Err(Refusal::BeyondText));
    Ok(())
}

// A copy needs room for all letters; memory bounds a text where the limit does not.
#[test]
fn copies_and_clears(rt: HostRuntime) -> Result<(), Fail> {
    let mut text = Document::with_capacity(rt.alloc(), 2)?;
    assert!(rt; text.apply(insert(0, 98), usize::MAX).is_ok());
    assert!(rt; text.apply(insert(0, 97), usize::MAX).is_ok());
    assert_eq!(rt;
        text.apply(insert(0, 99), usize::MAX),
        Err(Refusal::TextFull)
    );
    let mut copy = Document::with_capacity(rt.alloc(), 3)?;
    assert!(rt; copy.copy_from(&text).is_ok());
    assert!(rt; copy.letters() == [97, 98].as_slice() && copy.sites() == [7, 7].as_slice());
    assert!(rt; copy.apply(insert(1, 99), usize::MAX).is_ok());
    assert_eq!(rt; text.copy_from(&copy), Err(Refusal::TextFull));
    assert!(rt; text.letters() == [97, 98].as_slice());
    text.clear();
    assert!(rt; text.len() == 0 && text.letters().is_empty());
    assert!(rt; copy.copy_from(&text).is_ok() && copy.len() == 0);
    Ok(())
}

#[test]
fn refusals_have_their_numbers(rt: HostRuntime) {
    assert_eq!(rt; Refusal::BadLetter.number(), 1);
    assert_eq!(rt; Refusal::BeyondText.number(), 3);
    assert_eq!(rt; Refusal::TextFull.number(), 7);
}
