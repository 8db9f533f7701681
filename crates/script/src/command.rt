// What a line of a script asks for, or what is wrong with it.
ghost use Rattle.std.specs.Prelude.{◌≡◌, Some};
ghost use Rattle.script.specs.Commands.{verb_of, message_of};

use std::error::Error;
use std::fmt;

// How many writers a script can name: 0 and up.
pub const WRITERS: u8 = 4;

// The words that a command begins with.
#[derive(Clone, Copy, PartialEq, Eq, Debug)]
pub enum Verb {
    Type,
    Strike,
    Take,
    See,
    New,
    Stop,
    Settle,
    Show,
}

impl TryFrom<&[u8]> for Verb {
    type Error = Fault;

    ghost try_from_gives = { λ word r. r ≡ verb_of word.now };

    fn try_from(word: &[u8]) -> Result<Verb, Fault> {
        match word {
            b"type" => Ok(Verb::Type),
            b"strike" => Ok(Verb::Strike),
            b"take" => Ok(Verb::Take),
            b"see" => Ok(Verb::See),
            b"new" => Ok(Verb::New),
            b"stop" => Ok(Verb::Stop),
            b"settle" => Ok(Verb::Settle),
            b"show" => Ok(Verb::Show),
            _ => Err(Fault::UnknownCommand),
        }
    }
}

#[derive(Clone, Copy, PartialEq, Eq, Debug)]
pub enum Command {
    Type { writer: u8, place: u32, letter: u32 },
    Strike { writer: u8, place: u32 },
    Take { writer: u8 },
    See { writer: u8 },
    New { writer: u8 },
    Stop,
    Settle,
    Show,
}

// Why a line is no command.
#[derive(Clone, Copy, PartialEq, Eq, Debug)]
pub enum Fault {
    UnknownCommand,
    // Too few words after this one, or too many.
    Words(Verb),
    NoWriter,
    BadPlace,
    BadLetter,
}

impl Fault {
    pub fn message(self) -> &'static str
        ensures { result.now ≡ message_of self }
    {
        match self {
            Fault::UnknownCommand => "no such command",
            Fault::Words(Verb::Type) => "type wants a writer, a place and a letter",
            Fault::Words(Verb::Strike) => "strike wants a writer and a place",
            Fault::Words(Verb::Take) => "take wants a writer",
            Fault::Words(Verb::See) => "see wants a writer",
            Fault::Words(Verb::New) => "new wants a writer",
            Fault::Words(Verb::Stop) => "stop wants no word after it",
            Fault::Words(Verb::Settle) => "settle wants no word after it",
            Fault::Words(Verb::Show) => "show wants no word after it",
            Fault::NoWriter => "no such writer",
            Fault::BadPlace => "the place is no decimal number",
            Fault::BadLetter => "the letter is neither a decimal number nor one character",
        }
    }
}

impl fmt::Display for Fault {
    ghost output = { λ fault. Some (message_of fault) };

    fn fmt<W: fmt::Write>(&self, f: &mut fmt::Formatter<W>) -> fmt::Result {
        f.write_str(self.message())
    }
}

impl Error for Fault {}
