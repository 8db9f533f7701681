// What a room plays.
use crate::action::Action;

#[derive(Clone, Copy)]
pub enum Command {
    Ask { peer: u8, action: Action },
    // The server crashes and starts again from its history.
    Crash,
    // All join, all is taken, and all see all.
    Settle,
}
