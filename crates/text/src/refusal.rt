// Why an operation is not applied to a text.
ghost use Rattle.std.specs.Prelude.{◌≡◌};
ghost use Rattle.text.specs.Refusals.{number_of};

#[derive(Clone, Copy, PartialEq, Eq, Debug)]
pub enum Refusal {
    // The letter's number is 0 or too high.
    BadLetter,
    // The place is beyond the text.
    BeyondText,
    // No letter more has room.
    TextFull,
}

impl Refusal {
    // The number by which a refusal is reported. `u8::from` would not say which number that is.
    pub fn number(self) -> u8
        ensures { result ≡ number_of self }
    {
        match self {
            Refusal::BadLetter => 1,
            Refusal::BeyondText => 3,
            Refusal::TextFull => 7,
        }
    }
}
