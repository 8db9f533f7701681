// Why the client or the server does not do what it is asked.
ghost use Rattle.std.specs.Prelude.{◌≡◌};
ghost use Rattle.room.specs.Refusals.{number_of};

use client::refusal::Refusal as ClientRefusal;
use server::refusal::Refusal as ServerRefusal;

#[derive(Clone, Copy, PartialEq, Eq, Debug)]
pub enum Refusal {
    Client(ClientRefusal),
    Server(ServerRefusal),
}

impl Refusal {
    // The number by which a refusal is reported. `u8::from` would not say which number that is.
    pub fn number(self) -> u8
        ensures { result ≡ number_of self }
    {
        match self {
            Refusal::Client(refusal) => refusal.number(),
            Refusal::Server(refusal) => refusal.number(),
        }
    }
}

impl From<ClientRefusal> for Refusal {
    ghost use Rattle.room.specs.declared.refusal.Refusal.TheVariants.{Client};

    ghost from_gives = { λ refusal all. all ≡ Client refusal };

    fn from(refusal: ClientRefusal) -> Refusal {
        Refusal::Client(refusal)
    }
}

impl From<ServerRefusal> for Refusal {
    ghost use Rattle.room.specs.declared.refusal.Refusal.TheVariants.{Server};

    ghost from_gives = { λ refusal all. all ≡ Server refusal };

    fn from(refusal: ServerRefusal) -> Refusal {
        Refusal::Server(refusal)
    }
}
