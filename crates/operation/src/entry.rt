// An operation in the history, and one on its way there.

use crate::operation::Operation;

// How many entries a history has at most.
pub const HISTORY_CAPACITY: u32 = 4_294_967_294;

// An operation with its place in the history.
#[derive(Clone, Copy, PartialEq, Eq, Debug)]
pub struct Entry<O = Operation> {
    pub place: u32,
    pub op: O,
}

// What a client sends: the operation as it was performed, and how many entries of the history the client had seen then.
#[derive(Clone, Copy, PartialEq, Eq, Debug)]
pub struct Submission<O = Operation> {
    pub revision: u32,
    pub op: O,
}
