// What a peer can do to its text.

#[derive(Clone, Copy, PartialEq, Eq, Debug)]
pub enum Edit {
    Insert { place: u32, letter: u32 },
    Delete { place: u32 },
}
