// What a client is told when it joins: its site, how long the history is, and how many operations of it are of the site.
#[derive(Clone, Copy, PartialEq, Eq, Debug)]
pub struct Joined {
    pub site: u8,
    pub revision: u32,
    pub count: u32,
}
