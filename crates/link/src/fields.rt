// The fields of messages, read from the left: a field, and the bytes behind it.
ghost use Rattle.std.specs.Prelude.{◌≡◌, option_map, option_copied};
ghost use Rattle.link.specs.Reading.{byte_at, word_at, site_at, code_at, edit_from, operation_from};

use crate::letters::{HIGHEST_SITE, is_letter};
use crate::message::Edit;
use operation::operation::Operation;

// What an operation has in a message.
#[derive(Clone, Copy)]
pub(crate) struct OperationCode {
    pub(crate) kind: u8,
    pub(crate) place: u32,
    pub(crate) letter: u32,
}

// The kinds of operations.
const NOTHING: u8 = 0;

const INSERT: u8 = 1;

const DELETE: u8 = 2;

#[tactic(auto, unfolding(crate::specs::Reading::byte_at))]
pub(crate) fn byte(bytes: &[u8]) -> Option<(u8, &[u8])>
    ensures { option_map (λ x. (x.0, x.1.now)) result ≡ byte_at bytes.now }
{
    match bytes {
        [] => None,
        [byte, rest @ ..] => Some((*byte, rest)),
    }
}

#[tactic(auto, unfolding(crate::specs::Reading::word_at))]
pub(crate) fn word(bytes: &[u8]) -> Option<(u32, &[u8])>
    ensures { option_map (λ x. (x.0, x.1.now)) result ≡ word_at bytes.now }
{
    if bytes.len() < 4 {
        return None;
    }
    let (front, rest) = bytes.split_at(4);
    let number = u32::from_be_bytes([front[0], front[1], front[2], front[3]]);
    Some((number, rest))
}

#[tactic(auto, unfolding(crate::specs::Reading::site_at))]
pub(crate) fn site(bytes: &[u8]) -> Option<(u8, &[u8])>
    ensures { option_map (λ x. (x.0, x.1.now)) result ≡ site_at bytes.now }
{
    let (site, rest) = byte(bytes)?;
    if site > HIGHEST_SITE {
        return None;
    }
    Some((site, rest))
}

#[tactic(auto, unfolding(crate::specs::Reading::code_at))]
pub(crate) fn code(bytes: &[u8]) -> Option<OperationCode>
    ensures { result ≡ code_at bytes.now }
{
    let (kind, rest) = byte(bytes)?;
    let (place, rest) = word(rest)?;
    let (letter, rest) = word(rest)?;
    if !rest.is_empty() {
        return None;
    }
    Some(OperationCode {
        kind,
        place,
        letter,
    })
}

impl OperationCode {
    ghost use Rattle.link.specs.Spelling.{edit_code, operation_code};

    // What is said of an operation.
    pub(crate) fn of_edit(edit: Edit) -> OperationCode
        ensures { result ≡ edit_code edit }
    {
        match edit {
            Edit::Insert { place, letter } => OperationCode {
                kind: INSERT,
                place,
                letter,
            },
            Edit::Delete { place } => OperationCode {
                kind: DELETE,
                place,
                letter: 0,
            },
        }
    }

    pub(crate) fn of_operation(op: Operation) -> OperationCode
        ensures { result ≡ operation_code op }
    {
        match op {
            Operation::Noop { .. } => OperationCode {
                kind: NOTHING,
                place: 0,
                letter: 0,
            },
            Operation::Insert { place, letter, .. } => OperationCode {
                kind: INSERT,
                place,
                letter,
            },
            Operation::Delete { place, .. } => OperationCode {
                kind: DELETE,
                place,
                letter: 0,
            },
        }
    }

    // What a client has performed.
    pub(crate) fn edit(self) -> Option<Edit>
        ensures { result ≡ edit_from self }
    {
        let OperationCode {
            kind,
            place,
            letter,
        } = self;
        match kind {
            INSERT if is_letter(letter) => Some(Edit::Insert { place, letter }),
            DELETE if letter == 0 => Some(Edit::Delete { place }),
            _ => None,
        }
    }

    // An operation of the history.
    pub(crate) fn operation(self, site: u8) -> Option<Operation>
        ensures { result ≡ operation_from site self }
    {
        let OperationCode {
            kind,
            place,
            letter,
        } = self;
        match kind {
            INSERT if is_letter(letter) => Some(Operation::Insert {
                site,
                place,
                letter,
            }),
            DELETE if letter == 0 => Some(Operation::Delete { site, place }),
            NOTHING if place == 0 && letter == 0 => Some(Operation::Noop { site }),
            _ => None,
        }
    }
}
