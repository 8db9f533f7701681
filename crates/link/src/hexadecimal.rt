// Bytes as text: two hexadecimal digits each.
ghost use Rattle.std.specs.Prelude.{◌≡◌, List, ℕ, IfOk, string_bytes};
ghost use Rattle.hex.specs.Hex.{IsBytes, encode_lower, encode_upper};
ghost use Rattle.link.specs.Hexadecimal.{Gives, GivesBytes};

use crate::refusal::Refusal;
use hex::FromHexError;
use std::alloc::{AllocError, Global};

// Why text is not read.
#[derive(Clone, Copy, PartialEq, Eq, Debug)]
pub enum HexError {
    Refused(Refusal),
    OutOfMemory,
}

impl From<FromHexError> for HexError {
    ghost use Rattle.std.specs.Prelude.{◌≡◌};
    ghost use Rattle.link.specs.Hexadecimal.{error_of};

    ghost from_gives = { λ e f. f ≡ error_of e };

    fn from(error: FromHexError) -> HexError {
        match error {
            FromHexError::OutOfMemory => HexError::OutOfMemory,
            _ => HexError::Refused(Refusal::Malformed),
        }
    }
}

// The bytes that the text says, by digits in upper or lower case. An odd number of digits, and any other character, is malformed.
pub fn read_hexadecimal(alloc: Global, text: &[u8]) -> Result<Vec<u8>, HexError>
    ensures gives { Gives text.now result }
    ensures lower { (bytes : List ℕ) → IsBytes bytes → text.now ≡ encode_lower bytes → GivesBytes bytes result }
    ensures upper { (bytes : List ℕ) → IsBytes bytes → text.now ≡ encode_upper bytes → GivesBytes bytes result }
{
    Ok(hex::decode(alloc, text)?)
}

// The bytes as text, in lower case.
pub fn write_hexadecimal(alloc: Global, bytes: &[u8]) -> Result<String, AllocError>
    ensures { IfOk result (λ text. string_bytes text ≡ encode_lower bytes.now) }
{
    hex::encode(alloc, bytes)
}
