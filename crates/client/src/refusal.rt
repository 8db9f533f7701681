// Why a client does not do what it is asked.
ghost use Rattle.std.specs.Prelude.{◌≡◌};
ghost use Rattle.client.specs.Clients.{reason};
ghost use Rattle.client.specs.Refusals.{number_of};

use text::refusal::Refusal as TextRefusal;

#[derive(Clone, Copy, PartialEq, Eq, Debug)]
pub enum Refusal {
    // The letter's number is 0 or too high.
    BadLetter,
    // The place is beyond the text.
    BeyondText,
    // No operation more can be pending.
    PendingFull,
    // The entry is not the next of the history.
    NotNext,
    // No letter more has room.
    TextFull,
}

impl Refusal {
    // The number by which a refusal is reported. `u8::from` would not say which number that is.
    pub fn number(self) -> u8
        ensures { result ≡ number_of self }
    {
        match self {
            Refusal::BadLetter => 1,
            Refusal::BeyondText => 3,
            Refusal::PendingFull => 4,
            Refusal::NotNext => 6,
            Refusal::TextFull => 7,
        }
    }
}

// The client's name for a text's reason.
impl From<TextRefusal> for Refusal {
    ghost from_gives = { λ e r. r ≡ reason e };

    fn from(refusal: TextRefusal) -> Refusal {
        match refusal {
            TextRefusal::BadLetter => Refusal::BadLetter,
            TextRefusal::BeyondText => Refusal::BeyondText,
            TextRefusal::TextFull => Refusal::TextFull,
        }
    }
}
