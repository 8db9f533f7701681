// Why the server refuses a call.
ghost use Rattle.std.specs.Prelude.{◌≡◌};
ghost use Rattle.server.specs.Refusals.{number_of};

use std::alloc::AllocError;

#[derive(Clone, Copy, PartialEq, Eq, Debug)]
pub enum Refusal {
    // The letter's number is 0 or too high.
    BadLetter,
    // The site has no client.
    NotConnected,
    // The place is beyond the text.
    BeyondText,
    // The revision is above the history, or below one that was said before.
    BadRevision,
    // The text or the history has no room for more.
    Full,
    // Every site has a client.
    SitesInUse,
    OutOfMemory,
}

impl Refusal {
    // The number by which a refusal is reported. `u8::from` would not say which number that is.
    pub fn number(self) -> u8
        ensures { result ≡ number_of self }
    {
        match self {
            Refusal::BadLetter => 1,
            Refusal::NotConnected => 2,
            Refusal::BeyondText => 3,
            Refusal::BadRevision => 5,
            Refusal::Full => 7,
            Refusal::SitesInUse => 8,
            Refusal::OutOfMemory => 9,
        }
    }
}

impl From<AllocError> for Refusal {
    ghost use Rattle.std.specs.Prelude.{◌≡◌};
    ghost use Rattle.server.specs.declared.refusal.Refusal.TheVariants.{OutOfMemory};

    ghost from_gives = { λ _ refusal. refusal ≡ OutOfMemory };

    fn from(_: AllocError) -> Refusal {
        Refusal::OutOfMemory
    }
}
