// What is sent at once: a packet with a message, or an acknowledgement.

#[derive(Clone, Copy, PartialEq, Eq, Debug)]
pub struct Packet<M> {
    pub connection: u32,
    // The first message of a connection has number 1.
    pub number: u32,
    pub message: M,
}

#[derive(Clone, Copy, PartialEq, Eq, Debug)]
pub struct Acknowledgement {
    pub connection: u32,
    // The last number that was taken in that connection. Under connection 0 it is the connection that has ended.
    pub last: u32,
}

#[derive(Clone, Copy, PartialEq, Eq, Debug)]
pub enum Datagram<M> {
    Packet(Packet<M>),
    Acknowledgement(Acknowledgement),
}
