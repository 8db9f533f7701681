// Why a record cannot come next.
ghost use Rattle.std.specs.Prelude.{◌≡◌};
ghost use Rattle.journal.specs.Refusals.{number_of};

#[derive(Clone, Copy, PartialEq, Eq, Debug)]
pub enum Refusal {
    // The bytes are no record, or it has a site or a letter that there is not.
    Malformed,
    // The connection is not above the last.
    NotAbove,
    // The place is beyond the text.
    BeyondText,
    // The entry's place in the history is not the next.
    NotNext,
    // The text has no room for more, or the numbers of entries or connections are used up.
    Full,
}

impl Refusal {
    // The number by which a refusal is reported.
    pub fn number(self) -> u8
        ensures { result ≡ number_of self }
    {
        match self {
            Refusal::Malformed => 1,
            Refusal::NotAbove => 2,
            Refusal::BeyondText => 3,
            Refusal::NotNext => 6,
            Refusal::Full => 7,
        }
    }
}
