// What a client sends to the server.
ghost use Rattle.std.specs.Prelude.{◌≡◌};

use operation::entry::Submission;
use operation::operation::Operation;

#[derive(Clone, Copy)]
pub enum Message<O = Operation> {
    Operation(Submission<O>),
    // How many entries of the history the client has seen so far.
    Revision(u32),
}

impl Message {
    ghost use Rattle.network.specs.Messages.{is_operation};

    pub fn is_operation(&self) -> bool
        ensures { result ≡ is_operation self.now }
    {
        matches!(self, Message::Operation(_))
    }
}
