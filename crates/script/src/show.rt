// How letters are shown: as themselves where they can be printed, else by their number.
ghost use Rattle.std.specs.Prelude.{◌≡◌, ◌++◌, IfOk, string_bytes, OnOk};
ghost use Rattle.script.specs.Shown.{hex_of, escape_of, letter_shown, text_shown};

use std::alloc::{AllocError, Global};

// Writes a number in hexadecimal, with no leading zero. By hand: `write!` takes two to three times as long, and a text
// may be full of such letters.
fn push_hex(out: &mut String, number: u32) -> Result<(), AllocError>
    ensures { OnOk result (string_bytes out.new ≡ string_bytes out.old ++ hex_of number) }
{
    if number >= 16 {
        push_hex(out, number / 16)?;
    }
    out.push(char::from_digit(number % 16, 16).unwrap())
}

// Writes a letter by its number.
fn push_escape(out: &mut String, letter: u32) -> Result<(), AllocError>
    ensures { OnOk result (string_bytes out.new ≡ string_bytes out.old ++ escape_of letter) }
{
    out.push_str("\\u{")?;
    push_hex(out, letter)?;
    out.push('}')
}

// Writes a letter as itself, or, where it is a control character or the backslash, by its number. What is most frequent
// is found first.
fn push_letter(out: &mut String, letter: u32) -> Result<(), AllocError>
    ensures { OnOk result (string_bytes out.new ≡ string_bytes out.old ++ letter_shown letter) }
{
    match char::from_u32(letter) {
        Some(c @ ' '..='~') if c != '\\' => out.push(c),
        Some(c @ '\u{a1}'..) => out.push(c),
        _ => push_escape(out, letter),
    }
}

// The letters one after another, as a script's output shows them.
pub fn show(heap: Global, letters: &[u32]) -> Result<String, AllocError>
    ensures { IfOk result (λ s. string_bytes s ≡ text_shown letters.now) }
{
    let mut out = String::new(heap);
    for letter in letters {
        push_letter(&mut out, *letter)?;
    }
    Ok(out)
}
