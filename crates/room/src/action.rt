// What is done with one peer.
use crate::edit::Edit;

// The first four are commands of a script, and a peer without a connection joins first. The others are for settling.
#[derive(Clone, Copy)]
pub enum Action {
    Edit(Edit),
    // The server takes the peer's oldest operation.
    Take,
    // The peer sees the next entry.
    See,
    // The peer joins, for the first time or anew.
    Join,
    Rejoin,
    TakeAll,
    SeeAll,
}
