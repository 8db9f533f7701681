// What a pending operation does.
#[derive(Clone, Copy, PartialEq, Eq, Debug)]
pub enum Kind {
    Noop,
    Insert,
    Delete,
}
