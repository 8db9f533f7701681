// A line of a script, read as a command.
ghost use Rattle.std.specs.Prelude.{◌≡◌, ◌∷◌, []};
ghost use Rattle.script.specs.Words.{words_of};
ghost use Rattle.script.specs.Commands.{writer_of, place_of, letter_of, read_as, command_of};

use crate::command::{Command, Fault, Verb, WRITERS};
use crate::numbers::{character, decimal};
use crate::words::Words;

fn parse_writer(word: &[u8]) -> Result<u8, Fault>
    ensures { result ≡ writer_of word.now }
{
    match decimal(word).map(u8::try_from) {
        Some(Ok(writer)) if writer < WRITERS => Ok(writer),
        _ => Err(Fault::NoWriter),
    }
}

fn parse_place(word: &[u8]) -> Result<u32, Fault>
    ensures { result ≡ place_of word.now }
{
    decimal(word).ok_or(Fault::BadPlace)
}

// A letter's number, or the letter itself.
fn parse_letter(word: &[u8]) -> Result<u32, Fault>
    ensures { result ≡ letter_of word.now }
{
    decimal(word)
        .or_else(|| character(word))
        .ok_or(Fault::BadLetter)
}

// A verb alone.
fn parse_alone(verb: Verb) -> Result<Command, Fault>
    ensures { result ≡ read_as verb [] }
{
    match verb {
        Verb::Stop => Ok(Command::Stop),
        Verb::Settle => Ok(Command::Settle),
        Verb::Show => Ok(Command::Show),
        _ => Err(Fault::Words(verb)),
    }
}

// A verb with a writer behind it.
fn parse_with_writer(verb: Verb, writer: &[u8]) -> Result<Command, Fault>
    ensures { result ≡ read_as verb (writer.now ∷ []) }
{
    match verb {
        Verb::Take => Ok(Command::Take {
            writer: parse_writer(writer)?,
        }),
        Verb::See => Ok(Command::See {
            writer: parse_writer(writer)?,
        }),
        Verb::New => Ok(Command::New {
            writer: parse_writer(writer)?,
        }),
        _ => Err(Fault::Words(verb)),
    }
}

// The words behind a verb, read as it wants: so many, and no more. Nothing behind the first word too many is read.
fn parse_rest(verb: Verb, mut words: Words<'_>) -> Result<Command, Fault>
    ensures { result ≡ read_as verb (words_of words.entry.line.now) }
{
    match verb {
        Verb::Type => match (words.next(), words.next(), words.next(), words.next()) {
            (Some(writer), Some(place), Some(letter), None) => Ok(Command::Type {
                writer: parse_writer(writer)?,
                place: parse_place(place)?,
                letter: parse_letter(letter)?,
            }),
            _ => Err(Fault::Words(verb)),
        },
        Verb::Strike => match (words.next(), words.next(), words.next()) {
            (Some(writer), Some(place), None) => Ok(Command::Strike {
                writer: parse_writer(writer)?,
                place: parse_place(place)?,
            }),
            _ => Err(Fault::Words(verb)),
        },
        Verb::Take | Verb::See | Verb::New => match (words.next(), words.next()) {
            (Some(writer), None) => parse_with_writer(verb, writer),
            _ => Err(Fault::Words(verb)),
        },
        Verb::Stop | Verb::Settle | Verb::Show => match words.next() {
            None => parse_alone(verb),
            _ => Err(Fault::Words(verb)),
        },
    }
}

// The command on a line; none on a line that is empty or a comment.
pub fn parse(line: &[u8]) -> Result<Option<Command>, Fault>
    ensures { result ≡ command_of line.now }
{
    let mut words = Words::new(line);
    match words.next() {
        None | Some([b'#', ..]) => Ok(None),
        Some(first) => parse_rest(Verb::try_from(first)?, words).map(Some),
    }
}
