// Numbers and letters as a script writes them.
ghost use Rattle.std.specs.Prelude.{◌≡◌};
ghost use Rattle.script.specs.Numbers.{decimal_of, character_of};

// The decimal number that the word is, or the highest that 32 bits hold if it is higher; none if it is no decimal
// number.
pub(crate) fn decimal(word: &[u8]) -> Option<u32>
    ensures { result ≡ decimal_of word.now }
{
    if word.is_empty() {
        return None;
    }
    let mut number: u32 = 0;
    for byte in word {
        let digit = char::from(*byte).to_digit(10)?;
        number = number.saturating_mul(10).saturating_add(digit);
    }
    Some(number)
}

// The number of the one character that the word is, if it is one.
pub(crate) fn character(word: &[u8]) -> Option<u32>
    ensures { result ≡ character_of word.now }
{
    let mut letters = std::str::from_utf8(word).ok()?.chars();
    let (Some(letter), None) = (letters.next(), letters.next()) else {
        return None;
    };
    Some(u32::from(letter))
}
